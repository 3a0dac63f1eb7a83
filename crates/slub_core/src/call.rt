//! What a worker is to do: the calls of its events.

ghost use Rattle.std.specs.Prelude.{◌≡◌};
ghost use Rattle.slub_core.specs.Calls.{call_kind};

/// What a call asks of the allocator.
#[derive(Clone, Copy, Debug, PartialEq, Eq)]
pub enum CallKind {
    /// Gives an object (`kmem_cache_alloc`).
    Alloc,
    /// Takes an object back (`kmem_cache_free`).
    Free,
    /// Writes a word of a held object (profile).
    Write,
    /// Reads a word of a held object (profile).
    Read,
    /// Writes a byte in a checked object's slot (profile).
    Poke,
    /// Shrinks a cache (`kmem_cache_shrink`).
    Trim,
    /// Puts away what a CPU has of every cache (`flush_all_cpus_locked`, for one CPU).
    Flush,
}

/// One call, with what its kind asks for.
///
/// A `place` is where the object stands among those that the worker knows.
#[derive(Clone, Copy, Debug, PartialEq, Eq)]
pub enum Call {
    Alloc {
        cpu: u32,
        /// The live cache; None where the name that was asked for isn't live.
        cache: Option<u8>,
        object: u32,
        place: usize,
    },
    Free {
        cpu: u32,
        object: u32,
        place: usize,
    },
    Write {
        object: u32,
        place: usize,
        /// The word of the object, from 0 on.
        word: u32,
        value: u64,
    },
    Read {
        object: u32,
        place: usize,
        /// The word of the object, from 0 on.
        word: u32,
    },
    Poke {
        object: u32,
        place: usize,
        /// The byte's place, counted from the object's address.
        offset: i32,
        byte: u8,
    },
    Trim {
        /// The live cache; None where the name that was asked for isn't live.
        cache: Option<u8>,
    },
    Flush {
        cpu: u32,
    },
}

impl Call {
    /// What it asks of the allocator.
    #[inline(always)]
    pub fn kind(self) -> CallKind
        ensures { result ≡ call_kind self }
    {
        match self {
            Call::Alloc { .. } => CallKind::Alloc,
            Call::Free { .. } => CallKind::Free,
            Call::Write { .. } => CallKind::Write,
            Call::Read { .. } => CallKind::Read,
            Call::Poke { .. } => CallKind::Poke,
            Call::Trim { .. } => CallKind::Trim,
            Call::Flush { .. } => CallKind::Flush,
        }
    }
}
