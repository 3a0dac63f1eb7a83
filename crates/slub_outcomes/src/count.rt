//! Replaying a trace with many seeds.

ghost use Rattle.std.specs.Prelude.{◌+◌, ◌^◌, ◌≤◌, length, IfOk};
ghost use Rattle.slub_trace.specs.Sound.{IsSound};
ghost use Rattle.slub_outcomes.specs.Replays.{AreCounted};

use crate::progress::Progress;
use crate::replay::replay;
use crate::span::Span;
use crate::tally::{Outcome, Tally};
use slub_common::no_memory::NoMemory;
use slub_edges::gate::Gate;
use slub_trace::trace::Trace;
use std::alloc::Global;
use std::sync::Wait;
use std::thread::Threads;

/// What replays with many seeds came to.
#[derive(Debug, Drop)]
pub struct Counted {
    /// In their order.
    pub outcomes: Vec<Outcome>,
    /// Some seed spent the turns of a round.
    pub is_spent: bool,
}

/// Replays a trace with so many seeds, from one on, each as far as the span goes, and counts the outcomes.
pub fn count<R: Threads + Wait + Sync, G: Gate + Sync, P: Progress>(
    rt: &R,
    gate: &G,
    alloc: Global,
    from: u64,
    seeds: u32,
    trace: &Trace,
    span: &Span,
    progress: &mut P,
) -> Result<Counted, NoMemory>
    requires sound { IsSound trace.now }
    requires within { span.now.end ≤ length trace.now.items }
    requires last { from + seeds ≤ 2 ^ 64 }
    ensures { IfOk result (AreCounted trace.now span.now from seeds) }
{
    let mut tally = Tally::new(alloc);
    let mut is_spent = false;
    for k in 0..seeds {
        progress.done(k, seeds);
        let seed = from + u64::from(k);
        let replayed = replay(rt, gate, alloc, seed, trace, span)?;
        is_spent = is_spent || replayed.is_spent;
        tally.note(replayed.replies, seed)?;
    }
    let outcomes = tally.into_outcomes(alloc)?;
    Ok(Counted { outcomes, is_spent })
}
