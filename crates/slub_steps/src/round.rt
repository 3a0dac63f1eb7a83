//! A round, written step by step.

ghost use Rattle.std.specs.Prelude.{◌≡◌, ℕ, ◌+◌, ◌<◌, ◌≤◌, All, IfOk, length};
ghost use Rattle.slub_lists.specs.Coherent.{IsCoherent};
ghost use Rattle.slub_trace.specs.Sound.{IsSound};
ghost use Rattle.slub_slabinfo_text.specs.Texts.{IsNamed};
ghost use Rattle.slub_law_replay.specs.Runs.{IsReadyMachine};
ghost use Rattle.slub_items.specs.Watched.{IsDue};
ghost use Rattle.slub_steps.specs.Counted.{IsRoundDone};
ghost use Rattle.slub_steps.specs.Inner.{ClosesBy, ClosesRound, HaltsBy, IsFirstKept, OpensAs, StopsBy, due_of, ids_among, stop_by};
ghost use Rattle.slub_steps.specs.Rounds.{IsOpening, WritesRound, labels_of};
ghost use Rattle.slub_steps.specs.Sayers.{Sayer};

use crate::titles::titles_of;
use crate::writing::{show, write_item};
use slub_asked::stop::Stop;
use slub_common::no_memory::NoMemory;
use slub_edges::edges::Sink;
use slub_items::machine::Machine;
use slub_items::watched::Unwatched;
use slub_log_text::parts::{Counts, Shown, put_closing, put_opening};
use slub_open_close::ids::Ids;
use slub_picks::faults::Bad;
use slub_picks::made::Made;
use slub_round_log::choice::Choice;
use slub_round_log::context::Context;
use slub_round_log::kept::{Fault, Halt, Kept};
use slub_round_log::log::Log;
use slub_slabinfo_text::journal::{Done, RoundResult};
use slub_state_text::names::LiveNames;
use slub_trace::event::Round;
use slub_trace::trace::Trace;
use slub_turn_text::labels::Labels;
use std::alloc::Global;

/// Of which round a text tells, and whether it is written.
#[derive(Clone, Copy, Debug)]
pub struct ToldRound {
    /// The place of the item in the trace.
    pub number: usize,
    /// Which `round` line begins it, from 1.
    pub round: u32,
    pub is_shown: bool,
}

/// The ids beside a machine: its own, or others where it keeps none.
fn ids_of<'a>(machine: &'a Machine, others: &'a Option<Ids>) -> &'a [u32]
    ensures { result.now ≡ ids_among machine.entry.now.ids others.entry.now }
{
    match (machine.ids(), others) {
        (Some(ids), _) => ids.by_word.as_slice(),
        (None, Some(others)) => others.by_word.as_slice(),
        (None, None) => &[],
    }
}

/// What stands before the turns.
fn opening(
    alloc: Global,
    machine: &Machine,
    trace: &Trace,
    place: ToldRound,
    round: &Round,
    live: &LiveNames,
) -> Result<Vec<u8>, NoMemory>
    requires coherent { IsCoherent machine.now.lists }
    requires workers { round.now.workers ≤ 16 }
    ensures { IfOk result (λ text. (sayer : Sayer) → IsOpening (due_of place trace.now round.now sayer live.now) machine.now text.items) }
{
    let first = Some(Ids::first(alloc, 0, machine.lists().cpus())?);
    let before = Shown {
        lists: machine.lists(),
        first: trace.tid,
        ids: ids_of(machine, &first),
        live,
    };
    let mut text = Vec::new(alloc);
    put_opening(&mut text, trace, place.round, round, &before)?;
    Ok(text)
}

/// What stands behind the turns, before the replies.
fn closing(
    alloc: Global,
    machine: &Machine,
    left: &Option<Ids>,
    trace: &Trace,
    place: ToldRound,
    round: &Round,
    live: &LiveNames,
    kept: &Kept,
) -> Result<Vec<u8>, NoMemory>
    requires { IsCoherent machine.now.lists }
    ensures { IfOk result (λ text. ClosesBy place trace.now round.now live.now machine.now left.now kept.now text.items) }
{
    let after = Shown {
        lists: machine.lists(),
        first: trace.tid,
        ids: ids_of(machine, left),
        live,
    };
    let counts = Counts {
        turns: kept.context.turns(),
        lost: kept.context.lost(),
        waits: kept.context.waits(),
    };
    let mut text = Vec::new(alloc);
    put_closing(&mut text, place.round, round, &after, counts, &kept.made)?;
    Ok(text)
}

/// What a log has before the round.
fn kept<'a>(
    alloc: Global,
    machine: &Machine,
    trace: &Trace,
    round: &Round,
    choice: Choice<'a>,
    is_shown: bool,
) -> Result<Kept<'a>, NoMemory>
    requires coherent { IsCoherent machine.now.lists }
    requires workers { round.now.workers ≤ 16 }
    requires named { All (λ event. IsNamed trace.now.names event.act) round.now.events }
    ensures { IfOk result (λ k. IsFirstKept k (labels_of trace.now machine.now.lists round.now) choice.entry is_shown) }
{
    let titles = titles_of(alloc, machine.lists())?;
    let labels = Labels::open(
        alloc,
        trace.names.as_slice(),
        titles,
        round.workers as u8,
        round.events.as_slice(),
    )?;
    Ok(Kept {
        labels,
        choice,
        is_shown,
        lines: Vec::new(alloc),
        context: Context::first(alloc)?,
        made: Made::new(alloc),
        waits: false,
        fault: None,
    })
}

/// What a fault of a log stops the run for.
fn stop_by(fault: Fault) -> Stop
    ensures { result ≡ stop_by fault }
{
    match fault {
        Fault::Write => Stop::WriteFault,
        Fault::NoMemory => Stop::NoMemory,
    }
}

/// What a log that has its round end stops the run for, after so many turns.
fn stop_for(alloc: Global, halt: Halt, round: u32, turns: u64) -> Stop
    ensures { HaltsBy halt round turns result }
{
    match halt {
        Halt::Failed(fault) => stop_by(fault),
        Halt::Unfit(misfit) => {
            let bad = Bad::InRound {
                misfit,
                round,
                turns,
            };
            Stop::of_picks(alloc, bad)
        }
    }
}

/// Why a round ended before its time, after so many turns. What failed in its log comes first.
fn stop_of(
    alloc: Global,
    why: Unwatched<Machine, Halt>,
    fault: Option<Fault>,
    round: u32,
    turns: u64,
) -> Stop
    ensures { StopsBy fault why round turns result }
{
    if let Some(fault) = fault {
        return stop_by(fault);
    }
    match why {
        Unwatched::NoMemory(_) => Stop::NoMemory,
        Unwatched::TurnsSpent => Stop::TurnsSpent,
        Unwatched::Halted(halt) => stop_for(alloc, halt, round, turns),
    }
}

/// Writes what stands behind the turns of a round that was done.
fn close_round<K: Sink>(
    alloc: Global,
    machine: Machine,
    outcome: RoundResult,
    left: Option<Ids>,
    trace: &Trace,
    place: ToldRound,
    round: &Round,
    live: &LiveNames,
    kept: &Kept,
    sink: K,
) -> (K, Result<(Machine, Done), Stop>)
    requires coherent { IsCoherent machine.lists }
    requires sound { IsSound trace.now }
    requires within { place.number < length trace.now.items }
    ensures { ClosesRound place trace.now round.now live.now machine left outcome kept.now (record { taken = K.taken sink; faults = K.faults sink }) (record { taken = K.taken result.0; faults = K.faults result.0 }) result.1 }
{
    let mut sink = sink;
    let tail = match closing(alloc, &machine, &left, trace, place, round, live, kept) {
        Ok(tail) => tail,
        Err(NoMemory) => return (sink, Err(Stop::NoMemory)),
    };
    let done = Done::Round(outcome);
    let ToldRound {
        number,
        is_shown,
        ..
    } = place;
    match write_item(
        alloc,
        &mut sink,
        trace,
        number,
        is_shown,
        tail.as_slice(),
        &done,
    ) {
        Ok(()) => (sink, Ok((machine, done))),
        Err(stop) => (sink, Err(stop)),
    }
}

/// Does a round step by step, and writes it, if it is shown.
pub fn do_round<K: Sink>(
    alloc: Global,
    machine: Machine,
    trace: &Trace,
    place: ToldRound,
    round: &Round,
    live: &LiveNames,
    choice: Choice,
    sink: K,
) -> (K, Result<(Machine, Done), Stop>)
    requires { IsDue machine trace.now place.number round.now }
    ensures done { IfOk result.1 (λ done. IsRoundDone machine.lists round.now done.1 done.0.lists) }
    ensures ready { IfOk result.1 (λ done. IsReadyMachine done.0 trace.now (place.number + 1)) }
    ensures written { (sayer : Sayer) → OpensAs sayer round.now.workers choice.entry → WritesRound (due_of place trace.now round.now sayer live.now) place.is_shown machine (record { taken = K.taken sink; faults = K.faults sink }) (record { taken = K.taken result.0; faults = K.faults result.0 }) result.1 }
{
    let mut sink = sink;
    let head = match opening(alloc, &machine, trace, place, round, live) {
        Ok(head) => head,
        Err(NoMemory) => return (sink, Err(Stop::NoMemory)),
    };
    if let Err(stop) = show(&mut sink, place.is_shown, head.as_slice()) {
        return (sink, Err(stop));
    }
    let kept = match kept(alloc, &machine, trace, round, choice, place.is_shown) {
        Ok(kept) => kept,
        Err(NoMemory) => return (sink, Err(Stop::NoMemory)),
    };
    let (result, log) = machine.watched_round(alloc, round, Log { kept, sink });
    let Log { kept, sink } = log;
    match result {
        Ok((machine, outcome, left)) => close_round(
            alloc, machine, outcome, left, trace, place, round, live, &kept, sink,
        ),
        Err(why) => {
            let turns = kept.context.turns();
            let stop = stop_of(alloc, why, kept.fault, place.round, turns);
            (sink, Err(stop))
        }
    }
}
