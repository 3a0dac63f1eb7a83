//! A gate that adds up how often workers had to wait, and notes how long their events took.

use crate::nanos_since;
use slub_edges::gate::Gate;
use std::io;
use std::rt::Clock;
use std::sync::atomic::{AtomicBool, AtomicU64, Ordering};
use std::time::Instant;

/// How often the workers of a run had to wait.
#[derive(Clone, Copy, Debug, PartialEq, Eq)]
pub(crate) struct Waits {
    /// Exchanges of words of CPUs, slabs and CPUs' partial lists that they lost.
    pub(crate) lost: u64,
    /// How often they slept on a lock.
    pub(crate) parked: u64,
}

/// A gate that lets everything pass at once, adds up what workers tell it at the end of their events, and notes when the
/// first of them came to its first event and when the last one left.
#[derive(Debug, Drop)]
pub(crate) struct CountingGate<'a, R: Clock> {
    rt: &'a R,
    made: Instant,
    /// Nanoseconds since it was made.
    first: AtomicU64,
    last: AtomicU64,
    /// The clock couldn't be read once.
    unread: AtomicBool,
    lost: AtomicU64,
    parked: AtomicU64,
}

impl<'a, R: Clock> CountingGate<'a, R> {
    /// A gate that nobody has passed.
    pub(crate) fn new(rt: &'a R) -> io::Result<CountingGate<'a, R>> {
        Ok(CountingGate {
            rt,
            made: Instant::now(rt)?,
            first: AtomicU64::new(u64::MAX),
            last: AtomicU64::new(0),
            unread: AtomicBool::new(false),
            lost: AtomicU64::new(0),
            parked: AtomicU64::new(0),
        })
    }

    /// What the workers that have left had to wait.
    pub(crate) fn waits(&self) -> Waits {
        Waits {
            lost: self.lost.load(Ordering::SeqCst),
            parked: self.parked.load(Ordering::SeqCst),
        }
    }

    /// The nanoseconds from the first event of all to the end of the last one, where the clock could be read each time.
    pub(crate) fn nanos(&self) -> Option<u64> {
        if self.unread.load(Ordering::SeqCst) {
            return None;
        }
        let last = self.last.load(Ordering::SeqCst);
        Some(last.saturating_sub(self.first.load(Ordering::SeqCst)))
    }

    /// The nanoseconds since it was made. Where the clock can't be read, that is noted.
    fn now(&self) -> u64 {
        let Ok(nanos) = nanos_since(self.rt, &self.made) else {
            self.unread.store(true, Ordering::SeqCst);
            return 0;
        };
        nanos
    }
}

impl<'a, R: Clock> Gate for CountingGate<'a, R> {
    fn pass(&self, _worker: u32, event: u32) {
        if event == 0 {
            self.first.fetch_min(self.now(), Ordering::SeqCst);
        }
    }

    fn left(&self, _worker: u32, lost: u64, parked: u64) {
        self.last.fetch_max(self.now(), Ordering::SeqCst);
        self.lost.fetch_add(lost, Ordering::SeqCst);
        self.parked.fetch_add(parked, Ordering::SeqCst);
    }
}
