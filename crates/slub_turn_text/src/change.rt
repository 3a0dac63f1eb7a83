//! The lines of a change that is done at once.

ghost use Rattle.std.specs.Prelude.{◌≡◌, ◌+◌, ◌++◌, OnOk, drop, flat_map, length};
ghost use Rattle.slub_core.specs.Setup.{node_lock};
ghost use Rattle.slub_core.specs.Values.{value_in, values_of};
ghost use Rattle.slub_turn_text.specs.Changes as spec;

use crate::at_once::push_change_says;
use crate::checked::push_aside;
use crate::columns::{push_cell, push_front, push_words};
use crate::labels::{Labels, event_number};
use crate::turns::push_event_cells;
use slub_common::no_memory::NoMemory;
use slub_core::guarded::Guarded;
use slub_core::local::{FrameRun, PartialString};
use slub_core::setup::Setup;
use slub_core::spot::{
    AllocSpot, CheckedSpot, DiscardSpot, FreeSpot, MoveSetSpot, PutAwaySpot, Spot, TrimSpot,
};
use slub_core::worker_local::Local;
use slub_red_zone::checked::CheckedSlabs;
use slub_trace::damage::Report;
use slub_trace::reply::Reply;

/// What is remembered of a worker before a change that is done at once.
#[derive(Clone, Copy, Debug, PartialEq, Eq)]
pub struct Before {
    pub spot: Spot,
    /// Which of its events it is in, from 0 on.
    pub event: usize,
    /// The slab that it works on.
    pub frame: u16,
    pub string: Option<PartialString>,
    pub run: FrameRun,
    /// How many damages the cache has told.
    pub reports: usize,
}

/// What a lock's value has told of damages.
fn reports_in(value: &Guarded) -> &[Report]
    ensures { result.now ≡ spec.reports_in (value_in value.now) }
{
    match value {
        Guarded::Checked(slabs) => slabs.reports(),
        Guarded::Nothing | Guarded::Node(_) | Guarded::Pool(_) => &[],
    }
}

/// How many damages a cache has told.
fn count_reports(values: &[Guarded], cache: u8) -> usize
    ensures { result ≡ length (spec.reports_in (values_of values.now (node_lock cache))) }
{
    match values.get(usize::from(cache) + 1) {
        Some(value) => reports_in(value).len(),
        None => 0,
    }
}

/// What is to be remembered of a worker before a change.
pub fn note_change(values: &[Guarded], local: &Local) -> Before
    ensures { result ≡ spec.before_of (values_of values.now) local.now }
{
    Before {
        spot: local.spot(),
        event: event_number(local),
        frame: local.hand().frame,
        string: local.string(),
        run: local.run_or_none(),
        reports: count_reports(values, local.cache()),
    }
}

/// Whether something is done at once at a spot.
#[tactic(auto, unfolding(crate::specs::Changes::is_at_once))]
fn is_at_once(spot: Spot) -> bool
    ensures { result ≡ spec.is_at_once spot }
{
    match spot {
        Spot::InAlloc(AllocSpot::PopNode | AllocSpot::TakeRun) => true,
        Spot::InPutAway(PutAwaySpot::PutNode, _) => true,
        Spot::InDiscard(DiscardSpot::PutRun, _) => true,
        Spot::InFree(FreeSpot::TakeOff) => true,
        Spot::InMoveSet(MoveSetSpot::ChooseFront | MoveSetSpot::PutTail, _) => true,
        Spot::InTrim(TrimSpot::ScanNode | TrimSpot::DropScanned) => true,
        Spot::InChecked(CheckedSpot::DoChecked, _) => true,
        Spot::InChecked(CheckedSpot::MoveRun, _) => true,
        Spot::InChecked(CheckedSpot::AddSlab, _) => true,
        _ => false,
    }
}

/// A value of a cache.
fn push_of(text: &mut Vec<u8>, words: &[u8], title: &[u8]) -> Result<(), NoMemory>
    ensures { OnOk result (text.new.items ≡ text.old.items ++ words.now ++ title.now) }
{
    push_words(text, words)?;
    push_words(text, title)
}

/// The value that is changed at once at a spot.
#[tactic(auto, unfolding(crate::specs::Changes::value_text))]
fn push_value(text: &mut Vec<u8>, title: &[u8], spot: Spot) -> Result<(), NoMemory>
    ensures { OnOk result (text.new.items ≡ text.old.items ++ spec.value_text title.now spot) }
{
    match spot {
        Spot::InAlloc(AllocSpot::PopNode) => push_of(text, b"node ", title),
        Spot::InAlloc(AllocSpot::TakeRun) => push_words(text, b"pool"),
        Spot::InPutAway(PutAwaySpot::PutNode, _) => push_of(text, b"node ", title),
        Spot::InDiscard(DiscardSpot::PutRun, _) => push_words(text, b"pool"),
        Spot::InFree(FreeSpot::TakeOff) => push_of(text, b"node ", title),
        Spot::InMoveSet(MoveSetSpot::ChooseFront, _) => push_words(text, b"string"),
        Spot::InMoveSet(MoveSetSpot::PutTail, _) => push_of(text, b"node ", title),
        Spot::InTrim(TrimSpot::ScanNode) => push_of(text, b"node ", title),
        Spot::InTrim(TrimSpot::DropScanned) => push_of(text, b"node ", title),
        Spot::InChecked(CheckedSpot::DoChecked, _) => push_of(text, b"checked ", title),
        Spot::InChecked(CheckedSpot::MoveRun, _) => push_words(text, b"pool"),
        Spot::InChecked(CheckedSpot::AddSlab, _) => push_of(text, b"checked ", title),
        _ => Ok(()),
    }
}

/// All that stands before what a line says.
#[tactic(auto, unfolding(crate::specs::Changes::change_front))]
fn push_change_front(
    text: &mut Vec<u8>,
    labels: &Labels,
    before: &Before,
    local: &Local,
) -> Result<(), NoMemory>
    ensures { OnOk result (text.new.items ≡
        text.old.items ++ spec.change_front labels.now before.now local.now) }
{
    let worker = local.worker();
    let mut value = Vec::new(*text.allocator());
    push_value(
        &mut value,
        labels.title_of(usize::from(local.cache())),
        before.spot,
    )?;
    push_front(text, b"+", labels.workers(), worker)?;
    push_event_cells(text, labels, worker, before.event, before.spot)?;
    push_cell(text, 16, value.as_slice())?;
    push_cell(text, 13, b"at once")
}

/// The line of a slab that was set aside.
fn push_aside_line(
    text: &mut Vec<u8>,
    front: &[u8],
    slabs: &CheckedSlabs,
    report: &Report,
) -> Result<(), NoMemory>
    ensures { OnOk result (text.new.items ≡
        text.old.items ++ spec.aside_line front.now slabs.now report.now) }
{
    push_words(text, front)?;
    push_aside(text, slabs, report)?;
    push_words(text, b"\n")
}

/// Damages but the first so many.
fn behind(reports: &[Report], before: usize) -> &[Report]
    ensures { result.now ≡ drop before reports.now }
{
    if before > reports.len() {
        return &[];
    }
    &reports[before..]
}

/// A line for each damage of checked slabs but the first so many.
fn push_aside_of(
    text: &mut Vec<u8>,
    front: &[u8],
    before: usize,
    slabs: &CheckedSlabs,
) -> Result<(), NoMemory>
    ensures { OnOk result (text.new.items ≡ text.old.items
        ++ flat_map (spec.aside_line front.now slabs.now) (drop before slabs.now.reports)) }
{
    for report in behind(slabs.reports(), before) {
        push_aside_line(text, front, slabs, report)?;
    }
    Ok(())
}

/// A line for each damage of a cache but the first so many.
#[tactic(auto, unfolding(crate::specs::Changes::aside_lines))]
fn push_aside_lines(
    text: &mut Vec<u8>,
    front: &[u8],
    before: usize,
    values: &[Guarded],
    cache: u8,
) -> Result<(), NoMemory>
    ensures { OnOk result (text.new.items ≡ text.old.items
        ++ spec.aside_lines front.now before (values_of values.now (node_lock cache))) }
{
    match values.get(usize::from(cache) + 1) {
        Some(Guarded::Checked(slabs)) => push_aside_of(text, front, before, slabs),
        _ => Ok(()),
    }
}

/// The lines of a change that is done at once: of the worker before it, the values and the worker after it, and the
/// reply that came of it, which isn't noted yet. None where the worker's spot calls for a step.
pub fn push_change(
    text: &mut Vec<u8>,
    labels: &Labels,
    before: &Before,
    setup: &Setup,
    values: &[Guarded],
    local: &Local,
    reply: Option<Reply>,
) -> Result<(), NoMemory>
    ensures { OnOk result (text.new.items ≡ text.old.items
        ++ spec.change_lines labels.now setup.now (values_of values.now) before.now local.now reply) }
{
    if !is_at_once(before.spot) {
        return Ok(());
    }
    let mut front = Vec::new(*text.allocator());
    push_change_front(&mut front, labels, before, local)?;
    push_aside_lines(
        text,
        front.as_slice(),
        before.reports,
        values,
        local.cache(),
    )?;
    push_words(text, front.as_slice())?;
    push_change_says(text, setup, values, before, local, reply)?;
    push_words(text, b"\n")
}
