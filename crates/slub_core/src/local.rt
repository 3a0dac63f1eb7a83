//! What a worker has: objects that it knows, slabs in hand, a string of slabs, a run of frames.

use crate::call::Call;
use slub_trace::reply::Reply;

/// An object that a worker was given or took from the board in this round.
///
/// A frame of 0 is room for an object that the worker doesn't know yet.
#[derive(Clone, Copy, Debug, PartialEq, Eq)]
pub struct Known {
    pub object: u32,
    /// The first frame of the object's slab.
    pub frame: u16,
    pub index: u16,
    pub cache: u8,
    /// False before the worker has it, and once it has freed it.
    pub held: bool,
}

/// A slab in a worker's hand, with the chain of objects that the worker has taken with it.
#[derive(Clone, Copy, Debug, PartialEq, Eq)]
pub struct Hand {
    pub frame: u16,
    /// The index plus one of the first object of the chain in hand; 0 for none.
    pub head: u16,
    /// The index plus one of the last object that a walk along the chain has found; 0 before the walk.
    pub last: u16,
    /// How many objects the walk has found.
    pub length: u16,
    /// Whether the walk has come to the chain's end.
    pub walked: bool,
}

/// A string of slabs in a worker's hand, each leading to the next by its link word.
#[derive(Clone, Copy, Debug, PartialEq, Eq)]
pub struct PartialString {
    pub front: u16,
    pub count: u16,
    /// The frame at `place` of the string, which a walk along it has come to.
    pub cursor: u16,
    /// Counted from 1.
    pub place: u16,
    /// What the last link leads to, once that is known.
    pub link: Option<u16>,
}

/// A run of 2^order frames in a worker's hand: no slab yet, or no slab any more.
#[derive(Clone, Copy, Debug, PartialEq, Eq)]
pub struct FrameRun {
    pub frame: u16,
    pub order: u32,
    /// The objects of a slab of the call's cache in these frames.
    pub objects: u16,
}

/// A call of a worker with the reply that it had.
#[derive(Clone, Copy, Debug, PartialEq, Eq)]
pub struct Answered {
    pub call: Call,
    pub reply: Reply,
}
