//! The workers of a round with their seats, and what is left of them.

use crate::shared::WorkerSeat;
use crate::worker::Worker;
use slub_core::guarded::Guarded;
use slub_core::worker_local::Local;

/// The workers of a round, each with its seat at the table.
#[derive(Drop)]
pub struct Workers {
    /// The last one first.
    pub list: Vec<Worker>,
    pub(crate) rest: Rest,
}

/// What is kept for the end of a round.
#[derive(Drop)]
pub struct Rest {
    /// The first seat, which knows of no worker while each has its own.
    pub(crate) root: WorkerSeat,
    /// Room: for what the locks guard, for the workers that are back, and for those that have worked.
    pub(crate) values: Vec<Guarded>,
    pub(crate) locals: Vec<Local>,
    pub(crate) done: Vec<Worker>,
}

/// All workers of a round, once they have given their seats back.
#[derive(Drop)]
pub struct Ended {
    /// The first seat, which knows of all of them.
    pub(crate) root: WorkerSeat,
    /// Room for what the locks guard.
    pub(crate) values: Vec<Guarded>,
    /// In rising number.
    pub(crate) locals: Vec<Local>,
    /// One of them has tried.
    pub(crate) tried: bool,
}
