//! What came of a client's line.

ghost use Rattle.std.specs.Prelude.{◌≡◌};
ghost use Rattle.slub_slabinfo_text.specs.Asked.{refusal_of};

use crate::journal::RoundResult;
use slub_common::sequence::Sequence;
use slub_trace::create::{CreateRefusal, Created};
use slub_trace::event::Round;
use slub_trace::reply::Reply;

/// Why a cache gave no object to a client.
#[derive(Clone, Copy, Debug, PartialEq, Eq)]
pub enum CacheRefusal {
    /// No run of frames was there for a new slab.
    NoFrames,
    /// The CPU word has this transaction id, which is spent.
    IdsSpent(u32),
    /// The name isn't live.
    NoSuchCache,
}

/// What a client's line is answered. Addresses are in bytes.
#[derive(Debug, Drop)]
pub enum ClientAnswer {
    /// `kmalloc`: what each class's creation answered, in rising order of the classes.
    Created(Sequence<Result<Created, CreateRefusal>>),
    /// No class is as large as the size that was asked for.
    TooLarge,
    /// The object at this address.
    Given(u32),
    /// The cache gave none.
    Refused(CacheRefusal),
    /// The number isn't on the board.
    NotHeld,
    /// No class names the object's cache now, or the cache is checked.
    NotKmalloc,
    /// The object is large enough.
    Stays,
    /// The object at this address is there in place of the other, which was freed.
    Moved(u32),
    /// Every number of a `bulk` was given.
    All,
    /// Nothing was given, or all was freed again; why the first allocation that failed did.
    Nothing(CacheRefusal),
    /// The least number of a `bulkfree` that isn't on the board.
    NotHeldOf(u32),
    /// A `bulkfree` freed so many.
    BulkFreed(u32),
    /// The reserve exists.
    Taken,
    /// There are as many reserves as there may be.
    TooMany,
    /// The reserve was made.
    Made,
    /// There is no such reserve.
    NoPool,
    /// A number of the reserve, and its address.
    Lent { object: u32, address: u32 },
    /// The object isn't of the cache that the reserve's name names now.
    WrongCache,
    /// A reserve has the number.
    InReserve,
    /// The reserve has the number now.
    Kept,
    /// The object at this address was freed.
    Freed(u32),
    /// The free found the object damaged.
    Corrupt,
}

/// A round of one worker that a client's line made: what it asked, and what came of it.
#[derive(Debug, Drop)]
pub struct ClientRound {
    pub asked: Round,
    pub result: RoundResult,
}

/// What came of a client's line.
#[derive(Debug, Drop)]
pub struct ClientDone {
    /// The rounds that it made, none, one or two, in their order.
    pub rounds: Sequence<ClientRound>,
    pub answer: ClientAnswer,
}

impl CacheRefusal {
    /// What an allocation's reply says of the cache where it gave nothing.
    pub fn of(reply: &Reply) -> Option<CacheRefusal>
        ensures { result ≡ refusal_of reply.now }
    {
        match reply {
            Reply::NoFrames => Some(CacheRefusal::NoFrames),
            Reply::IdsSpent(tid) => Some(CacheRefusal::IdsSpent(*tid)),
            Reply::NoSuchCache => Some(CacheRefusal::NoSuchCache),
            _ => None,
        }
    }
}
