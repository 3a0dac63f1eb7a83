//! How a worker waits after a step that it lost, and how one that sleeps is woken.

ghost use Rattle.std.specs.Prelude.{◌≡◌, ◌<◌, ◌≤◌, IfSome, None};
ghost use Rattle.slub_workers.specs.Cells.{cell_of};

use crate::cell::cell;
use crate::shared::Shared;
use crossbeam_utils::Backoff;
use slub_core::step::{Answer, Place, Step};
use std::sync::Wait;
use std::sync::atomic::Ordering;

/// How often a worker looks at a lock's word before it sleeps: as many times as a `Backoff` snoozes until it is
/// completed. It makes seven pauses, each but the first twice as long as the one before, and then it lets other threads
/// run four times.
const LOOKS: u32 = 11;

/// How many spins of a `Backoff` a worker makes after an exchange of a CPU's word that it lost: some 3000 pauses of the
/// processor, since from its seventh one on each is of 64.
const SPINS: u32 = 48;

/// How a worker waits, and how often it had to. No clause speaks of it.
#[derive(Drop)]
pub(crate) struct Waits {
    /// Exchanges of words that aren't locks, which it lost.
    pub(crate) lost: u64,
    /// How often it slept on a lock.
    pub(crate) parked: u64,
    /// It isn't reset, so from the seventh spin of a worker on each is of 64 pauses.
    backoff: Backoff,
}

impl Waits {
    /// Of a worker that hasn't lost a step.
    pub(crate) fn new() -> Waits {
        Waits {
            lost: 0,
            parked: 0,
            backoff: Backoff::new(),
        }
    }

    /// After a step: where a lock is lost the worker waits for it, and where it is given back one that sleeps is woken.
    /// Where a CPU's word is lost another worker is at work on this CPU: then it spins, with no lock in hand, so long that
    /// the other one can make some events. After any other exchange that is lost it spins once.
    #[inline(always)]
    pub(crate) fn pause<W: Wait>(&mut self, wait: &W, shared: &Shared, step: Step, answer: Answer) {
        match (step.place, answer) {
            (Place::LockOf(lock), Answer::Lost(_)) => {
                let slept = wait_for(wait, shared, lock as usize);
                self.parked = self.parked.saturating_add(u64::from(slept));
            }
            (Place::LockOf(lock), Answer::Done) => wake(shared, lock as usize),
            (Place::CpuOf(_), Answer::Lost(_)) => self.lose(SPINS),
            (_, Answer::Lost(_)) => self.lose(1),
            _ => {}
        }
    }

    /// Counts an exchange that was lost, of a word that isn't a lock, and spins so many times.
    #[cold]
    #[inline(never)]
    fn lose(&mut self, spins: u32) {
        self.lost = self.lost.saturating_add(1);
        for _ in 0..spins {
            self.backoff.spin();
        }
    }
}

/// The cell of a lock's word, where the table has it.
fn cell_of_lock(shared: &Shared, lock: usize) -> Option<usize>
    ensures some { IfSome result (λ at. (at ≡ cell_of lock) × (at < shared.now.words.shared.table_id.words)) }
    ensures none { result ≡ None → shared.now.words.shared.table_id.words ≤ cell_of lock }
{
    let at = cell(lock);
    (at < shared.words.word_count()).then_some(at)
}

/// Waits for a lock that another worker has: looks at its word some times, since most locks are given back after a few
/// steps, and returns where it is 0; after the last look it sleeps until the word changes. Whether it slept.
#[cold]
#[inline(never)]
fn wait_for<W: Wait>(wait: &W, shared: &Shared, lock: usize) -> bool {
    let Some(at) = cell_of_lock(shared, lock) else {
        return false;
    };
    let backoff = Backoff::new();
    let mut found = 0;
    for _ in 0..LOOKS {
        found = shared.words.shared.peek(at);
        if found == 0 {
            return false;
        }
        backoff.snooze();
    }
    sleep(wait, shared, at, found);
    true
}

/// Sleeps while the word in this cell is the one that was found there. It is counted before it looks at the word.
fn sleep<W: Wait>(wait: &W, shared: &Shared, at: usize, found: u64)
    requires { at < shared.now.words.shared.table_id.words }
{
    let low = (found & 0xffff_ffff) as u32;
    shared.asleep.fetch_add(1, Ordering::SeqCst);
    shared.words.shared.park(wait, at, low);
    shared.asleep.fetch_sub(1, Ordering::SeqCst);
}

/// Wakes one that sleeps on the word of a lock, which was changed before. Where nobody is counted now, whoever comes to
/// sleep on the word finds it changed.
#[inline(never)]
fn wake(shared: &Shared, lock: usize) {
    if shared.asleep.load(Ordering::SeqCst) == 0 {
        return;
    }
    if let Some(at) = cell_of_lock(shared, lock) {
        shared.words.shared.wake_one(at);
    }
}
