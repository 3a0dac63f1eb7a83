//! What a trace has.

use crate::event::Round;
use slub_common::sequence::Sequence;
use slub_object_layout::layout::{Setting, Spec};
use slub_object_layout::name::Name;

/// What a line of a client of the allocator asks. Sizes are in bytes.
#[derive(Clone, Copy, Debug)]
pub enum Client {
    Kmalloc,
    Kget {
        cpu: u32,
        size: u32,
        object: u32,
    },
    Krealloc {
        cpu: u32,
        object: u32,
        size: u32,
        fresh: u32,
    },
    Bulk {
        cpu: u32,
        name: u32,
        first: u32,
        count: u32,
    },
    Bulkfree {
        cpu: u32,
        first: u32,
        count: u32,
    },
    Mempool {
        pool: Name,
        name: u32,
        min: u32,
        first: u32,
    },
    Mget {
        cpu: u32,
        pool: Name,
        object: u32,
    },
    Mput {
        cpu: u32,
        pool: Name,
        object: u32,
    },
}

/// One thing to do between rounds, or a round. A `name` is a place among the trace's names.
#[derive(Debug, Drop)]
pub enum Item {
    /// Creates a cache (`kmem_cache_create`).
    Cache { name: u32, spec: Spec },
    Round(Round),
    /// Gives back the slabs that a cache has no use for (`kmem_cache_shrink`).
    Shrink { name: u32 },
    /// Destroys a cache (`kmem_cache_destroy`).
    Destroy { name: u32 },
    /// Prints what `/proc/slabinfo` would say.
    Slabinfo,
    /// Sets a number of a live cache.
    Tune { name: u32, setting: Setting },
    Client(Client),
}

/// A trace: the machine, the names of caches, and the items in their order.
#[derive(Debug, Drop)]
pub struct Trace {
    /// The version that the first line names, 1 to 4.
    pub version: u32,
    /// The page frames of the machine, 2 to 4096, frame 0 counted.
    pub frames: u32,
    /// The CPUs of the machine, 1 to 16.
    pub cpus: u32,
    /// The transaction id that the CPUs start at.
    pub tid: u32,
    /// The greatest object number that a line may allocate, or 0.
    pub objects: u32,
    /// Each name of a `cache` line once, in the order of the first lines that have them; a `kmalloc`
    /// line counts as one of each of its thirteen names, in rising order of the classes.
    pub names: Sequence<Name>,
    pub items: Sequence<Item>,
}
