//! The fault lines of picks and of rounds.

ghost use Rattle.std.specs.Prelude.{◌≡◌, IfOk};
ghost use Rattle.slub_picks.specs.Faults.{bad_line, misfit_line, no_event_line, no_round_line, no_worker_line, parts_left_line, picks_end_line};

use crate::walk::Misfit;
use slub_common::no_memory::NoMemory;
use std::alloc::Global;

/// Why picks don't fit a trace, or there is no such round.
#[derive(Clone, Copy, Debug, PartialEq, Eq)]
pub enum Bad {
    /// A part doesn't fit its round, once so many turns are made.
    InRound {
        misfit: Misfit,
        round: u32,
        turns: u64,
    },
    /// Parts were left at the end of the trace, which has so many rounds of two or more workers.
    PartsLeft {
        parts: usize,
        rounds: usize,
    },
    /// The trace has no such `round` line.
    NoRound(u32),
}

/// The line where an entry names a worker that the round hasn't.
fn no_worker_line(
    alloc: Global,
    entry: usize,
    worker: usize,
    round: u32,
) -> Result<Vec<u8>, NoMemory>
    ensures { IfOk result (λ line. line.items ≡ no_worker_line entry worker round) }
{
    let line = format!(in alloc; "slub: pick {entry}: no worker {worker} in round {round}\n")?;
    Ok(line.into_bytes())
}

/// The line where an entry is to make a turn, and its worker is finished.
fn no_event_line(
    alloc: Global,
    entry: usize,
    worker: usize,
    round: u32,
) -> Result<Vec<u8>, NoMemory>
    ensures { IfOk result (λ line. line.items ≡ no_event_line entry worker round) }
{
    let line = format!(in alloc;
        "slub: pick {entry}: worker {worker} has no event left in round {round}\n"
    )?;
    Ok(line.into_bytes())
}

/// The line where a part is at its end, and its round isn't.
fn picks_end_line(alloc: Global, round: u32, turns: u64) -> Result<Vec<u8>, NoMemory>
    ensures { IfOk result (λ line. line.items ≡ picks_end_line round turns) }
{
    let line = format!(in alloc; "slub: picks end in round {round} after {turns} turns\n")?;
    Ok(line.into_bytes())
}

/// The line where parts were left.
fn parts_left_line(alloc: Global, parts: usize, rounds: usize) -> Result<Vec<u8>, NoMemory>
    ensures { IfOk result (λ line. line.items ≡ parts_left_line parts rounds) }
{
    let line = format!(in alloc; "slub: picks for {parts} rounds, there are {rounds}\n")?;
    Ok(line.into_bytes())
}

/// The line where the trace has no such round.
fn no_round_line(alloc: Global, round: u32) -> Result<Vec<u8>, NoMemory>
    ensures { IfOk result (λ line. line.items ≡ no_round_line round) }
{
    let line = format!(in alloc; "slub: no round {round}\n")?;
    Ok(line.into_bytes())
}

/// The line that tells where a part doesn't fit its round, once so many turns are made.
fn misfit_line(alloc: Global, misfit: Misfit, round: u32, turns: u64) -> Result<Vec<u8>, NoMemory>
    ensures { IfOk result (λ line. line.items ≡ misfit_line misfit round turns) }
{
    match misfit {
        Misfit::NoWorker { entry, worker } => no_worker_line(alloc, entry, worker, round),
        Misfit::NoEvent { entry, worker } => no_event_line(alloc, entry, worker, round),
        Misfit::PicksEnd => picks_end_line(alloc, round, turns),
    }
}

impl Bad {
    /// The line that tells of it.
    pub fn line(self, alloc: Global) -> Result<Vec<u8>, NoMemory>
        ensures { IfOk result (λ line. line.items ≡ bad_line self) }
    {
        match self {
            Bad::InRound {
                misfit,
                round,
                turns,
            } => misfit_line(alloc, misfit, round, turns),
            Bad::PartsLeft { parts, rounds } => parts_left_line(alloc, parts, rounds),
            Bad::NoRound(round) => no_round_line(alloc, round),
        }
    }
}
