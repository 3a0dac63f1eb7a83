//! What was done.

ghost use Rattle.slub_slabinfo_text.specs.Journal.{IsEmpty};

use crate::client::ClientDone;
use crate::counts::InfoRow;
use slub_common::no_such_cache::NoSuchCache;
use slub_common::sequence::Sequence;
use slub_object_layout::name::Name;
use slub_trace::create::{CreateRefusal, Created};
use slub_trace::damage::Report;
use slub_trace::destroy::{DestroyRefusal, Destroyed};
use slub_trace::ledger::Ledger;
use slub_trace::reply::Reply;
use slub_trace::tune::TuneRefusal;
use std::alloc::Global;

/// A damage that was found in a round, with the title of its cache.
#[derive(Clone, Copy, Debug)]
pub struct Found {
    pub title: Name,
    pub report: Report,
}

/// What came of a round.
#[derive(Debug, Drop)]
pub struct RoundResult {
    /// The answers, in the order of the events.
    pub replies: Sequence<Reply>,
    /// What was found damaged when objects were to be given: by cache number, and then in the order in
    /// which it was found.
    pub damages: Sequence<Found>,
    /// By worker.
    pub ledgers: Sequence<Ledger>,
}

/// What came of an item.
#[derive(Debug, Drop)]
pub enum Done {
    Created(Result<Created, CreateRefusal>),
    Round(RoundResult),
    /// Whether the cache still has a slab.
    Shrunk(Result<bool, NoSuchCache>),
    Destroyed(Result<Destroyed, DestroyRefusal>),
    Slabinfo(Sequence<InfoRow>),
    Tuned(Result<(), TuneRefusal>),
    Client(ClientDone),
}

/// The sums at the end: of the ledgers, and over the live caches.
#[derive(Clone, Copy, Debug, PartialEq, Eq)]
pub struct Total {
    pub given: u64,
    pub freed: u64,
    pub live: u64,
    pub free: u64,
    pub aside: u64,
    pub frozen: u64,
    pub slabs: u64,
    /// The free page frames.
    pub frames: u64,
}

/// What a run did: the machine that it was for, and what came of each item.
#[derive(Debug, Drop)]
pub struct Journal {
    pub frames: u32,
    pub cpus: u32,
    pub tid: u32,
    pub items: Sequence<Done>,
    /// There where every item was done.
    pub total: Option<Total>,
}

impl Journal {
    /// The journal of nothing: no machine, no items, no total.
    pub fn empty(alloc: Global) -> Journal
        ensures { IsEmpty result }
    {
        Journal {
            frames: 0,
            cpus: 0,
            tid: 0,
            items: Sequence::new(alloc),
            total: None,
        }
    }
}
