//! Why words or a list of picks weren't read.

ghost use Rattle.std.specs.Prelude.{◌≡◌};
ghost use Rattle.slub_picks.specs.declared.unread.Unread.TheVariants.{NoMemory as Want};

use slub_common::no_memory::NoMemory;
use std::alloc::{AllocError, AllocFailed};

/// Why words or a list of picks weren't read.
#[derive(Clone, Copy, Debug, PartialEq, Eq)]
pub enum Unread {
    /// They ask for nothing that is done here.
    BadWords,
    /// Memory ran out.
    NoMemory,
}

impl From<NoMemory> for Unread {
    ghost from_gives = { λ _ e. e ≡ Want };

    fn from(_want: NoMemory) -> Unread {
        Unread::NoMemory
    }
}

impl From<AllocError> for Unread {
    ghost from_gives = { λ _ e. e ≡ Want };

    fn from(_want: AllocError) -> Unread {
        Unread::NoMemory
    }
}

impl<T: Drop> From<AllocFailed<T>> for Unread {
    ghost from_gives = { λ _ e. e ≡ Want };

    fn from(_want: AllocFailed<T>) -> Unread {
        Unread::NoMemory
    }
}
