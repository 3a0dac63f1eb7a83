//! Replays side by side that share nothing: what the machine's processors give to as many threads.

use crate::runs::gated_nanos;
use crate::waits::CountingGate;
use slub_edges::faultless::FaultlessSink;
use slub_edges::gate::Gate;
use std::io;
use std::rt::Clock;
use std::sync::Wait;
use std::sync::atomic::{AtomicBool, AtomicU64, Ordering};
use std::thread::{Threads, join, yield_now};

/// For how many turns a worker waits for the others.
const TURNS: u64 = 10_000_000;

/// Where the workers of several replays wait for each other.
#[derive(Debug, Drop)]
struct Meeting {
    /// How many are to come, and how many have.
    workers: u64,
    come: AtomicU64,
    /// One of them went on before all had come.
    missed: AtomicBool,
}

impl Meeting {
    /// One to which nobody has come.
    fn of(workers: u64) -> Meeting {
        Meeting {
            workers,
            come: AtomicU64::new(0),
            missed: AtomicBool::new(false),
        }
    }

    /// Waits until all have come, letting other threads run at each turn. It gives up after a number of turns, and notes
    /// that.
    fn meet(&self) {
        self.come.fetch_add(1, Ordering::SeqCst);
        for _ in 0..TURNS {
            if self.have_met() {
                return;
            }
            yield_now();
        }
        self.missed.store(true, Ordering::SeqCst);
    }

    /// Whether all have come.
    fn have_met(&self) -> bool {
        self.come.load(Ordering::SeqCst) >= self.workers
    }

    /// Whether one went on without the others.
    fn was_missed(&self) -> bool {
        self.missed.load(Ordering::SeqCst)
    }
}

/// A gate that counts, and before its first event each worker waits for those of the other replays.
#[derive(Debug, Drop)]
struct MeetingGate<'a, R: Clock> {
    gate: CountingGate<'a, R>,
    meeting: &'a Meeting,
}

impl<'a, R: Clock> Gate for MeetingGate<'a, R> {
    fn pass(&self, worker: u32, event: u32) {
        if event == 0 {
            self.meeting.meet();
        }
        self.gate.pass(worker, event);
    }

    fn left(&self, worker: u32, lost: u64, parked: u64) {
        self.gate.left(worker, lost, parked);
    }
}

/// One of the replays. The nanoseconds from its first event to the end of its last one.
fn replay(
    rt: &(impl Clock + AllocGlobal + Threads + Wait + Sync),
    text: &[u8],
    words: &[&str],
    meeting: &Meeting,
) -> io::Result<u64> {
    let gate = MeetingGate {
        gate: CountingGate::new(rt)?,
        meeting,
    };
    gated_nanos(rt, text, words, &mut FaultlessSink::new(), &gate)?;
    match gate.gate.nanos() {
        Some(nanos) => Ok(nanos),
        None => Err(io::Error::from(io::ErrorKind::Other)),
    }
}

/// Two replays side by side. The nanoseconds of the one that takes longer.
fn two<R: Clock + AllocGlobal + Threads + Wait + Sync>(
    rt: &R,
    text: &[u8],
    words: &[&str],
    meeting: &Meeting,
) -> io::Result<u64> {
    let (one, other) = join(
        rt,
        || replay(rt, text, words, meeting),
        || replay(rt, text, words, meeting),
    );
    Ok(one?.max(other?))
}

/// Four replays side by side. The nanoseconds of the one that takes longest.
fn four<R: Clock + AllocGlobal + Threads + Wait + Sync>(
    rt: &R,
    text: &[u8],
    words: &[&str],
    meeting: &Meeting,
) -> io::Result<u64> {
    let (some, others) = join(
        rt,
        || two(rt, text, words, meeting),
        || two(rt, text, words, meeting),
    );
    Ok(some?.max(others?))
}

/// The nanoseconds from the first event to the end of the last one of four replays of a trace side by side, each with a
/// round of so many workers: the best of three runs. An error where the replays didn't begin together
/// in one of them.
pub(crate) fn four_nanos<R: Clock + AllocGlobal + Threads + Wait + Sync>(
    rt: &R,
    text: &[u8],
    words: &[&str],
    workers: u32,
) -> io::Result<u64> {
    let mut best = u64::MAX;
    for _ in 0..3 {
        let meeting = Meeting::of(4 * u64::from(workers));
        let nanos = four(rt, text, words, &meeting)?;
        if meeting.was_missed() {
            return Err(io::Error::from(io::ErrorKind::TimedOut));
        }
        best = best.min(nanos);
    }
    Ok(best)
}
