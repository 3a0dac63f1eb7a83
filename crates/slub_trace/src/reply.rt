//! What the allocator answers to an event.

ghost use Rattle.std.specs.Prelude.{◌≡◌};
ghost use Rattle.slub_trace.specs.Kinds.{is_ok_reply, kind_of};

use crate::damage::Damage;

/// The answer to one event of a round.
#[derive(Clone, Copy, Debug, PartialEq, Eq)]
pub enum Reply {
    /// An allocation gave the object at this address, in bytes.
    Given(u32),
    /// No run of frames was there for a new slab.
    NoFrames,
    /// The name that the event names isn't live.
    NoSuchCache,
    /// No memory was there for the bytes of a new checked slab.
    NoMemory,
    /// The CPU word has this transaction id, which is spent: no object is taken under it any more.
    IdsSpent(u32),
    /// A free took back the object at this address, in bytes.
    Freed(u32),
    /// The worker holds no object of the number; and for a free, none of it is on the board.
    NotHeld,
    /// A free found a checked object damaged; the worker holds it.
    Corrupt(Damage),
    /// A word was written.
    Wrote,
    /// The word that was read.
    Value(u64),
    /// The word doesn't lie in the object.
    OutOfObject,
    /// A byte was written.
    Poked,
    /// The byte doesn't lie in the object's slot.
    OutOfSlot,
    /// The object's cache isn't checked.
    NotChecked,
    /// A trim discarded so many slabs.
    Trimmed(u32),
    /// A trim was refused: its cache is checked.
    Checked,
    /// A flush put away so many current slabs and slabs of partial lists.
    Flushed(u32),
}

/// What kind of answer a reply is, as far as ledgers, texts and statuses tell replies apart.
#[derive(Clone, Copy, Debug, PartialEq, Eq)]
pub enum Kind {
    /// An object was given.
    Gives,
    /// An object was freed.
    Frees,
    /// Something else was done.
    Does,
    /// No run of frames was there.
    LacksFrames,
    /// No memory was there.
    LacksMemory,
    /// Nothing was done, for another cause.
    Refuses,
}

impl Reply {
    /// The kind of this reply.
    pub fn kind(&self) -> Kind
        ensures { result ≡ kind_of self.now }
    {
        match self {
            Reply::Given(_) => Kind::Gives,
            Reply::Freed(_) => Kind::Frees,
            Reply::Wrote | Reply::Value(_) | Reply::Poked | Reply::Trimmed(_) | Reply::Flushed(_) =>
                Kind::Does,
            Reply::NoFrames => Kind::LacksFrames,
            Reply::NoMemory => Kind::LacksMemory,
            Reply::NoSuchCache
            | Reply::IdsSpent(_)
            | Reply::NotHeld
            | Reply::Corrupt(_)
            | Reply::OutOfObject
            | Reply::OutOfSlot
            | Reply::NotChecked
            | Reply::Checked => Kind::Refuses,
        }
    }

    /// Whether what was asked was done: nothing was lacking, nothing refused, nothing found damaged.
    pub fn is_ok(&self) -> bool
        ensures { result ≡ is_ok_reply self.now }
    {
        matches!(self.kind(), Kind::Gives | Kind::Frees | Kind::Does)
    }
}
