//! The workers of a round, with all their events to come.

ghost use Rattle.std.specs.Prelude.{◌≡◌, ◌≤◌, All, IfOk, length, map};
ghost use Rattle.std.specs.List.{range_with_len};
ghost use Rattle.slub_core.specs.Run.{idle};
ghost use Rattle.slub_calls.specs.Calls.{IsNamedEvent, events_by, workers_of};
ghost use Rattle.slub_calls.specs.Share.{gathered};

use crate::share::Share;
use slub_cache_create::caches::Caches;
use slub_common::no_memory::NoMemory;
use slub_core::worker_local::Local;
use slub_trace::event::{Event, Round};
use std::alloc::Global;

/// All workers of a round, in rising number. An event of no worker of the round is no worker's call.
///
/// A worker's number is a byte, so there are at most 256. The cost is in proportion to the events, however many workers
/// there are.
pub fn workers(alloc: Global, table: &Caches, round: &Round) -> Result<Vec<Local>, NoMemory>
    requires named { All (IsNamedEvent table.now) round.now.events }
    requires few { round.now.workers ≤ 256 }
    ensures { IfOk result (λ workers. workers.items ≡ workers_of table.now round.now) }
{
    let shares = shares(alloc, table, round)?;
    let mut workers = Vec::with_capacity(alloc, shares.len())?;
    for share in shares {
        workers.push(share.into_local(alloc)?)?;
    }
    Ok(workers)
}

/// Each worker's share of the events.
fn shares(alloc: Global, table: &Caches, round: &Round) -> Result<Vec<Share>, NoMemory>
    requires named { All (IsNamedEvent table.now) round.now.events }
    requires few { round.now.workers ≤ 256 }
    ensures { IfOk result (λ shares. map gathered shares.items ≡ workers_of table.now round.now) }
{
    let events = round.events.as_slice();
    let mut shares = open_shares(alloc, round.workers, events)?;
    for event in events {
        let worker = event.worker as usize;
        if worker < shares.len() {
            shares[worker].push(table, event)?;
        }
    }
    Ok(shares)
}

/// The shares before the first event, each with room for all that its worker will have of these.
fn open_shares(alloc: Global, workers: u32, events: &[Event]) -> Result<Vec<Share>, NoMemory>
    requires { workers ≤ 256 }
    ensures { IfOk result (λ shares. map gathered shares.items ≡ map (λ worker. record idle { worker = worker }) (range_with_len 0 workers)) }
{
    let counts = counts(alloc, workers, events)?;
    let mut shares = Vec::with_capacity(alloc, counts.len())?;
    for worker in 0..workers {
        shares.push(Share::open(alloc, worker as u8, counts[worker as usize])?)?;
    }
    Ok(shares)
}

/// How many of the events each worker has.
fn counts(alloc: Global, workers: u32, events: &[Event]) -> Result<Vec<usize>, NoMemory>
    ensures { IfOk result (λ counts. counts.items ≡ map (λ worker. length (events_by worker events.now)) (range_with_len 0 workers)) }
{
    let mut counts = vec![in alloc; 0usize; workers as usize]?;
    for event in events {
        let worker = event.worker as usize;
        if worker < counts.len() {
            counts[worker] += 1;
        }
    }
    Ok(counts)
}
