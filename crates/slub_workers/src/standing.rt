//! What a worker has between two turns.

use slub_core::guarded::Guarded;
use slub_core::step::Answer;
use slub_core::worker_local::Local;
use std::marker::Model;

/// A worker, and what the locks guard that it has.
#[derive(Debug, Drop)]
pub struct Standing {
    pub(crate) local: Local,
    /// By the number of the lock; `Guarded::Nothing` of a lock that it hasn't.
    pub(crate) values: Vec<Guarded>,
    /// A turn of it was one in which a call that begins is a try.
    pub(crate) tried: bool,
    /// What its last step was answered; `Answer::Done` before the first one.
    pub(crate) answer: Answer,
    /// How many steps it has made on the table; after 2^64 of them the count begins again.
    pub(crate) steps: u64,
}

impl Model for Standing {
    ghost use Rattle.slub_workers.specs.Standing.{Standing};

    ghost Value = { Standing };

    ghost view = { λ x. record { local = x.local; values = x.values.items; tried = x.tried; answer = x.answer; steps = x.steps } };
}

/// Where a worker stands when memory was refused in its turn, and when it wasn't. No value of it is made.
#[derive(Debug, Drop)]
pub struct Fork {
    refused: Standing,
    granted: Standing,
}

impl Model for Fork {
    ghost use Rattle.slub_workers.specs.Standing.{Fork};

    ghost Value = { Fork };

    ghost view = { λ f. record { refused = f.refused; granted = f.granted } };
}
