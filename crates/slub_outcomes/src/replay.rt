//! Replaying a trace with one seed.
//!
//! `rt` and `gate` are what a machine asks of its caller for rounds by threads. No round is by threads here.

ghost use Rattle.std.specs.Prelude.{◌≡◌, ◌+◌, ◌<◌, ◌≤◌, [], length, IfOk, IsErrOf};
ghost use Rattle.slub_lists.specs.Coherent.{IsCoherent};
ghost use Rattle.slub_trace.specs.Sound.{IsSound};
ghost use Rattle.slub_slabinfo_text.specs.Lawful.{opening_of};
ghost use Rattle.slub_law_replay.specs.declared.way.Way.TheVariants.{Schedule};
ghost use Rattle.slub_law_replay.specs.Runs.{IsReadyMachine, SpendsAt, machine_of};
ghost use Rattle.slub_outcomes.specs.declared.replay.Cut.TheVariants.{NoMemory as Want};
ghost use Rattle.slub_outcomes.specs.Cuts.{cut_of};
ghost use Rattle.slub_outcomes.specs.Replays.{AreDone, IsReplayed};
ghost use Rattle.slub_outcomes.specs.Replies.{end_text};
ghost use Rattle.slub_outcomes.specs.Steps.{Adds};

use crate::replies::{lacks_memory, push_counted};
use crate::span::Span;
use crate::tally::Replies;
use slub_common::no_memory::NoMemory;
use slub_edges::gate::Gate;
use slub_items::machine::{Machine, Stopped};
use slub_law_replay::way::Way;
use slub_trace::trace::Trace;
use std::alloc::Global;
use std::sync::Wait;
use std::thread::Threads;

/// What a replay with a seed came to.
#[derive(Debug, Drop)]
pub struct Replayed {
    /// The replies that count; behind them a line says where turns were spent.
    pub replies: Replies,
    /// All turns of a round were made, and a worker of it was unfinished. Nothing behind that is done.
    pub is_spent: bool,
}

/// Why an item wasn't done.
#[derive(Clone, Copy, Debug, PartialEq, Eq)]
pub(crate) enum Cut {
    NoMemory,
    TurnsSpent,
}

impl From<Stopped> for Cut {
    ghost from_gives = { λ stopped e. e ≡ cut_of stopped };

    fn from(stopped: Stopped) -> Cut {
        match stopped {
            Stopped::NoMemory(_) => Cut::NoMemory,
            Stopped::TurnsSpent => Cut::TurnsSpent,
        }
    }
}

impl From<NoMemory> for Cut {
    ghost from_gives = { λ _ e. e ≡ Want };

    fn from(_want: NoMemory) -> Cut {
        Cut::NoMemory
    }
}

/// Does the item of a number, and puts its replies behind a text, if they count.
fn do_item<R: Threads + Wait + Sync, G: Gate + Sync>(
    rt: &R,
    gate: &G,
    alloc: Global,
    seed: u64,
    trace: &Trace,
    span: &Span,
    number: usize,
    machine: Machine,
    text: &mut Vec<u8>,
) -> Result<Machine, Cut>
    requires sound { IsSound trace.now }
    requires within { number < length trace.now.items }
    requires ready { IsReadyMachine machine trace.now number }
    ensures done { IfOk result
        (Adds seed machine trace.now span.now number text.old.items text.new.items) }
    ensures spent { IsErrOf result Cut.TurnsSpent → SpendsAt (Schedule seed) machine trace.now number }
    ensures same { IsErrOf result Cut.TurnsSpent → text.new.items ≡ text.old.items }
{
    let (after, done) = machine.item(rt, gate, alloc, trace, number, Way::Schedule { seed })?;
    if lacks_memory(&done) {
        return Err(Cut::NoMemory);
    }
    push_counted(text, trace, span, number, &done)?;
    Ok(after)
}

/// Does the items of a span, and says whether turns were spent. The replies that count are put into the text.
fn do_items<R: Threads + Wait + Sync, G: Gate + Sync>(
    rt: &R,
    gate: &G,
    alloc: Global,
    seed: u64,
    trace: &Trace,
    span: &Span,
    opened: Machine,
    text: &mut Vec<u8>,
) -> Result<bool, NoMemory>
    requires sound { IsSound trace.now }
    requires opened { opened ≡ machine_of trace.now }
    requires coherent { IsCoherent (opening_of trace.now) }
    requires within { span.now.end ≤ length trace.now.items }
    requires no_text { text.old.items ≡ [] }
    ensures { IfOk result (λ is_spent. AreDone trace.now span.now seed is_spent text.new.items) }
{
    let mut machine = opened;
    for number in 0..span.end {
        machine = match do_item(rt, gate, alloc, seed, trace, span, number, machine, text) {
            Ok(after) => after,
            Err(Cut::TurnsSpent) => return Ok(true),
            Err(Cut::NoMemory) => return Err(NoMemory),
        };
    }
    Ok(false)
}

/// What stands behind the replies that count.
fn end_text(is_spent: bool) -> &'static [u8]
    ensures { result.now ≡ end_text is_spent }
{
    if is_spent { b"turns spent\n" } else { b"" }
}

/// Replays a trace by schedule, in turns that the seed draws, as far as the span goes.
pub fn replay<R: Threads + Wait + Sync, G: Gate + Sync>(
    rt: &R,
    gate: &G,
    alloc: Global,
    seed: u64,
    trace: &Trace,
    span: &Span,
) -> Result<Replayed, NoMemory>
    requires sound { IsSound trace.now }
    requires within { span.now.end ≤ length trace.now.items }
    ensures { IfOk result (IsReplayed trace.now span.now seed) }
{
    let opened = Machine::open(alloc, trace)?;
    let mut text = Vec::new(alloc);
    let is_spent = do_items(rt, gate, alloc, seed, trace, span, opened, &mut text)?;
    text.extend_from_slice(end_text(is_spent))?;
    Ok(Replayed {
        replies: Replies::of(text),
        is_spent,
    })
}
