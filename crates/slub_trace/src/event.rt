//! What the workers of a round are to do.

use slub_common::sequence::Sequence;

/// What one event asks of the allocator. Object numbers are 1 to 1048576.
#[derive(Clone, Copy, Debug, PartialEq, Eq)]
pub enum Act {
    /// Allocates an object of the cache that the name at this place of the trace's names names.
    Alloc { cache: u32, object: u32 },
    /// Frees an object.
    Free { object: u32 },
    /// Writes a word, of eight bytes, of a held object.
    Write { word: u16, object: u32, value: u64 },
    /// Reads a word of a held object.
    Read { word: u16, object: u32 },
    /// Writes one byte of a checked object's slot, counted from its address.
    Poke { object: u32, offset: i32, byte: u8 },
    /// Shrinks a cache while others work.
    Trim { cache: u32 },
    /// Puts away what a CPU has of every cache.
    Flush,
}

/// One event of a round: who does what, and on which CPU.
///
/// The CPU is 0 for a write, a read, a poke and a trim; for a flush it is the flushed CPU.
///
/// It has 24 bytes, and a round may have half a million: fields lie in the order of the source, so
/// small ones stand first.
#[derive(Clone, Copy, Debug, PartialEq, Eq)]
pub struct Event {
    /// The line of the trace that the event stands on, from 1 on; 0 where the trace was made.
    pub line: u32,
    /// 0 to 15.
    pub worker: u8,
    /// 0 to 15.
    pub cpu: u8,
    pub act: Act,
}

/// The events of a round, in the order of the text.
#[derive(Debug, Drop)]
pub struct Round {
    /// 1 to 16.
    pub workers: u32,
    pub events: Sequence<Event>,
}
