//! What a line says.

use crate::event::{KmallocKind, KmemKind};
use crate::site::Site;
use slub_object_layout::name::Name;

/// A time as printed: what stands before the point, and behind it, or 0. All lines of a recording
/// have as many digits behind the point.
#[derive(Clone, Copy, Debug)]
pub struct Time {
    pub whole: u64,
    pub part: u64,
}

/// What stands in front of the values of an event.
#[derive(Clone, Copy, Debug)]
pub struct Head {
    pub cpu: u32,
    pub time: Time,
    /// None: another kind.
    pub kind: Option<KmemKind>,
}

/// What an event of the four kinds says that it did.
#[derive(Debug, Drop)]
pub enum SaidAct {
    CacheAlloc { asked: u32, slot: u32, site: Site },
    Kmalloc { slot: u32, kind: KmallocKind },
    CacheFree { name: Option<Name> },
    Kfree,
}

/// What a good line says.
#[derive(Debug, Drop)]
pub enum Said {
    /// Nothing: an empty line, a comment, a line of a callchain, `CPU N is empty`.
    Passed,
    /// `cpus=N`
    Cpus {
        cpus: u32,
    },
    /// `# entries-in-buffer/entries-written: A/B #P:N`: B less A events are overwritten.
    Buffer {
        overwritten: u64,
        cpus: u32,
    },
    /// `CPU:N [LOST A EVENTS]`, `CPU:N [A EVENTS DROPPED]`; 1 where A isn't told.
    Lost {
        count: u64,
    },
    /// An event of another kind.
    Other {
        time: Time,
    },
    Kmem {
        cpu: u32,
        time: Time,
        pointer: u64,
        act: SaidAct,
    },
}
