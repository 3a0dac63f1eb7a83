//! What the machine on plain lists is made of: slabs, what a CPU has of a cache, and held objects.

use slub_common::front_list::FrontList;

/// Objects of one slab, as indexes, front first.
pub type FreeList = FrontList<512>;

/// Slabs, by their first frames, front first.
pub type FrameList = FrontList<4095>;

/// A live slab: a run of 2^order frames that is cut into objects (`struct slab`).
#[derive(Clone, Copy, Debug, PartialEq, Eq)]
pub struct Slab {
    /// The number of its cache, 0 to 31.
    pub cache: u8,
    pub order: u32,
    /// How many objects it has, given and free.
    pub objects: u32,
    /// It belongs to one CPU: other CPUs put objects on its freelist, and take none. A slab of a
    /// checked cache never does.
    pub frozen: bool,
}

/// A run of 2^order frames for a slab, and how many objects the slab has.
#[derive(Clone, Copy, Debug, PartialEq, Eq)]
pub struct Run {
    pub frame: u16,
    pub order: u32,
    pub objects: u32,
}

/// What a CPU has of a cache (`struct kmem_cache_cpu`).
#[derive(Debug, Drop)]
pub struct CpuLists {
    /// The first frame of the slab that the CPU allocates from.
    pub current: Option<u16>,
    /// The CPU freelist: objects of the current slab.
    pub free: FreeList,
    /// The CPU's partial list: slabs with free objects, unfrozen.
    pub partial: FrameList,
}

/// An object that was given and not freed.
///
/// It has 8 bytes, and where it may be missing 10; a machine has two such places for each object number.
#[derive(Clone, Copy, Debug, PartialEq, Eq)]
pub struct Held {
    pub frame: u16,
    pub index: u16,
    /// The number of its cache, 0 to 31.
    pub cache: u8,
    /// The worker that holds it, 0 to 15, or none where it is on the board between rounds.
    pub worker: Option<u8>,
}
