//! Gates that the workers of a round by threads pass.
//!
//! A gate can hold a worker up, so that a test gets the order that it wants. It tells nothing: what
//! a round by threads comes to is said for every order of its workers. At the end of its events a
//! worker tells the gate what it waited for, for those who measure.

use std::sync::atomic::{AtomicBool, Ordering};
use std::thread::yield_now;

/// What a worker of a round by threads passes before each of its events.
///
/// No clause says when `pass` returns, nor what other workers have done by then.
pub trait Gate {
    /// Lets the worker on to this event. A worker counts its own events from 0.
    fn pass(&self, worker: u32, event: u32);

    /// Tells the gate, once, that the worker has no event left: how many exchanges of words that
    /// aren't locks it has lost, and how often it has slept on a lock. A count that comes to its
    /// greatest value stays there. No clause says what the counts are.
    fn left(&self, _worker: u32, _lost: u64, _parked: u64) {}
}

/// A gate that lets everything pass at once: the program's own.
#[derive(Clone, Copy, Debug, Default, PartialEq, Eq)]
pub struct OpenGate;

impl Gate for OpenGate {
    fn pass(&self, _worker: u32, _event: u32) {}
}

/// A gate for tests, which makes two workers overlap: worker 0 is held at its first event until
/// worker 1 has come to its own first. It gives up after a number of turns, and notes that.
///
/// It promises no more than that `pass` returns. Whether the workers met is read by `gave_up`.
#[derive(Debug, Drop)]
pub struct PairGate {
    turns: u64,
    second_came: AtomicBool,
    gave_up: AtomicBool,
}

impl PairGate {
    /// A gate that nobody has passed. It holds worker 0 for at most so many turns.
    pub fn of(turns: u64) -> PairGate {
        PairGate {
            turns,
            second_came: AtomicBool::new(false),
            gave_up: AtomicBool::new(false),
        }
    }

    /// True if worker 0 was let on though worker 1 hadn't been seen to come.
    pub fn gave_up(&self) -> bool {
        self.gave_up.load(Ordering::SeqCst)
    }

    /// Waits for worker 1, letting other threads run at each turn.
    fn hold(&self) {
        for _ in 0..self.turns {
            if self.second_came.load(Ordering::SeqCst) {
                return;
            }
            yield_now();
        }
        self.gave_up.store(true, Ordering::SeqCst);
    }
}

impl Gate for PairGate {
    fn pass(&self, worker: u32, event: u32) {
        match (worker, event) {
            (0, 0) => self.hold(),
            (1, 0) => self.second_came.store(true, Ordering::SeqCst),
            _ => {}
        }
    }
}
