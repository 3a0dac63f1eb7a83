//! What a change says that is done at once.

ghost use Rattle.std.specs.Prelude.{◌≡◌, ◌++◌, OnOk, flat_map};
ghost use Rattle.slub_core.specs.Alloc.{node_of};
ghost use Rattle.slub_core.specs.Values.{values_of};
ghost use Rattle.slub_turn_text.specs.AtOnce as spec;

use crate::change::Before;
use crate::checked::{push_add, push_do};
use crate::columns::{push_number, push_numbered, push_told, push_words};
use crate::fields::{push_run, push_words_run};
use slub_common::no_memory::NoMemory;
use slub_core::call::CallKind;
use slub_core::guarded::Guarded;
use slub_core::local::{FrameRun, PartialString};
use slub_core::setup::Setup;
use slub_core::spot::{
    AllocSpot, CheckedSpot, DiscardSpot, FreeSpot, MoveSetSpot, PutAwaySpot, Spot, TrimSpot,
};
use slub_core::values::node;
use slub_core::worker_local::Local;
use slub_trace::reply::Reply;

/// A slab comes off the list.
#[tactic(auto, unfolding(crate::specs::AtOnce::off_says))]
fn push_off(text: &mut Vec<u8>, frame: u16) -> Result<(), NoMemory>
    ensures { OnOk result (text.new.items ≡ text.old.items ++ spec.off_says frame) }
{
    push_words(text, b"takes slab ")?;
    push_number(text, u64::from(frame))?;
    push_words(text, b" off")
}

/// No slab is taken: the list is empty, or the CPU's has enough.
#[tactic(auto, unfolding(crate::specs::AtOnce::none_says))]
fn push_none(text: &mut Vec<u8>, frames: &[u16]) -> Result<(), NoMemory>
    ensures { OnOk result (text.new.items ≡ text.old.items ++ spec.none_says frames.now) }
{
    if frames.len() == 0 {
        push_words(text, b"takes none, it is empty")
    } else {
        push_words(text, b"takes none, it has enough")
    }
}

/// The head of the list comes off, or none (`get_partial_node`).
#[tactic(auto, unfolding(crate::specs::AtOnce::pop_says))]
fn push_pop(text: &mut Vec<u8>, frames: &[u16], local: &Local, spot: Spot) -> Result<(), NoMemory>
    ensures { OnOk result (text.new.items ≡ text.old.items ++ spec.pop_says frames.now local.now spot) }
{
    match spot {
        Spot::InAlloc(AllocSpot::LoadPopped) => push_off(text, local.hand().frame),
        _ => push_none(text, frames),
    }
}

/// A slab goes to the head.
#[tactic(auto, unfolding(crate::specs::AtOnce::head_says))]
fn push_head(text: &mut Vec<u8>, frame: u16) -> Result<(), NoMemory>
    ensures { OnOk result (text.new.items ≡ text.old.items ++ spec.head_says frame) }
{
    push_told(text, b"puts slab ", u64::from(frame), b" at the head")
}

/// A slab goes to the tail (`__unfreeze_partials`).
#[tactic(auto, unfolding(crate::specs::AtOnce::tail_says))]
fn push_tail(text: &mut Vec<u8>, frame: u16) -> Result<(), NoMemory>
    ensures { OnOk result (text.new.items ≡ text.old.items ++ spec.tail_says frame) }
{
    push_told(text, b"puts slab ", u64::from(frame), b" at the tail")
}

/// A slab goes to the head or the tail (`deactivate_slab`).
#[tactic(auto, unfolding(crate::specs::AtOnce::put_says))]
fn push_put(text: &mut Vec<u8>, frame: u16, local: &Local) -> Result<(), NoMemory>
    ensures { OnOk result (text.new.items ≡ text.old.items ++ spec.put_says frame local.now) }
{
    if local.slab_word().head == 0 {
        push_head(text, frame)
    } else {
        push_tail(text, frame)
    }
}

/// The freed slab comes off or stays (`remove_partial`).
#[tactic(auto, unfolding(crate::specs::AtOnce::take_off_says))]
fn push_take_off(text: &mut Vec<u8>, local: &Local, spot: Spot) -> Result<(), NoMemory>
    ensures { OnOk result (text.new.items ≡ text.old.items ++ spec.take_off_says local.now spot) }
{
    match spot {
        Spot::InDiscard(_, _) => push_off(text, local.here().frame),
        _ => {
            push_words(text, b"keeps slab ")?;
            push_number(text, u64::from(local.here().frame))
        }
    }
}

/// The frames of a list.
fn push_frames(text: &mut Vec<u8>, frames: &[u16]) -> Result<(), NoMemory>
    ensures { OnOk result (text.new.items ≡ text.old.items ++ flat_map spec.frame_item frames.now) }
{
    for frame in frames {
        push_words(text, b" ")?;
        push_number(text, u64::from(*frame))?;
    }
    Ok(())
}

/// The list in its new order.
#[tactic(auto, unfolding(crate::specs::AtOnce::order_says))]
fn push_order(text: &mut Vec<u8>, frames: &[u16]) -> Result<(), NoMemory>
    ensures { OnOk result (text.new.items ≡ text.old.items ++ spec.order_says frames.now) }
{
    push_words(text, b"orders")?;
    if frames.len() == 0 {
        return push_words(text, b" none");
    }
    push_frames(text, frames)
}

/// The slab that a scan has come to.
fn scanned_slab(frames: &[u16], local: &Local) -> u16
    ensures { result ≡ spec.scanned_of frames.now local.now }
{
    match frames.get(local.scanned().len()) {
        Some(frame) => *frame,
        None => 0,
    }
}

/// The scan goes on, or ends with a new order (`__kmem_cache_do_shrink`).
#[tactic(auto, unfolding(crate::specs::AtOnce::scan_says))]
fn push_scan(text: &mut Vec<u8>, frames: &[u16], local: &Local, spot: Spot) -> Result<(), NoMemory>
    ensures { OnOk result (text.new.items ≡ text.old.items ++ spec.scan_says frames.now local.now spot) }
{
    match spot {
        Spot::InTrim(TrimSpot::LoadScanned) => {
            let frame = scanned_slab(frames, local);
            push_numbered(text, b"comes to slab ", u64::from(frame))
        }
        _ => push_order(text, frames),
    }
}

/// There is no run of this order.
#[tactic(auto, unfolding(crate::specs::AtOnce::dry_says))]
fn push_dry(text: &mut Vec<u8>, order: u32) -> Result<(), NoMemory>
    ensures { OnOk result (text.new.items ≡ text.old.items ++ spec.dry_says order) }
{
    push_numbered(text, b"has no run of order ", u64::from(order))
}

/// A run is taken.
#[tactic(auto, unfolding(crate::specs::AtOnce::found_says))]
fn push_found(text: &mut Vec<u8>, run: FrameRun) -> Result<(), NoMemory>
    ensures { OnOk result (text.new.items ≡ text.old.items ++ spec.found_says run) }
{
    push_words_run(text, b"takes frames ", run)
}

/// A run is taken, or there is none (`allocate_slab`).
#[tactic(auto, unfolding(crate::specs::AtOnce::take_says))]
fn push_take(
    text: &mut Vec<u8>,
    setup: &Setup,
    local: &Local,
    run: FrameRun,
) -> Result<(), NoMemory>
    ensures { OnOk result (text.new.items ≡ text.old.items ++ spec.take_says setup.now local.now run) }
{
    if run.frame == 0 {
        push_dry(text, setup.layout(local.cache()).min_order)
    } else {
        push_found(text, run)
    }
}

/// A run is put back (`__free_pages`).
#[tactic(auto, unfolding(crate::specs::AtOnce::back_says))]
fn push_back(text: &mut Vec<u8>, run: FrameRun) -> Result<(), NoMemory>
    ensures { OnOk result (text.new.items ≡ text.old.items ++ spec.back_says run) }
{
    push_words(text, b"puts frames ")?;
    push_run(text, run)?;
    push_words(text, b" back")
}

/// The front comes off a string (`__unfreeze_partials`).
#[tactic(auto, unfolding(crate::specs::AtOnce::front_says))]
fn push_front_of(text: &mut Vec<u8>, string: Option<PartialString>) -> Result<(), NoMemory>
    ensures { OnOk result (text.new.items ≡ text.old.items ++ spec.front_says string) }
{
    let Some(string) = string else {
        return push_words(text, b"is at its end");
    };
    if string.count == 1 {
        push_words(text, b"gives slab ")?;
        push_number(text, u64::from(string.front))?;
        return push_words(text, b", its last");
    }
    push_words(text, b"leads on behind slab ")?;
    push_number(text, u64::from(string.front))
}

/// In an allocation.
#[tactic(auto, unfolding(crate::specs::AtOnce::alloc_change))]
fn push_alloc(
    text: &mut Vec<u8>,
    setup: &Setup,
    frames: &[u16],
    local: &Local,
    spot: AllocSpot,
) -> Result<(), NoMemory>
    ensures { OnOk result (text.new.items ≡
        text.old.items ++ spec.alloc_change setup.now frames.now local.now spot) }
{
    match spot {
        AllocSpot::PopNode => push_pop(text, frames, local, local.spot()),
        AllocSpot::TakeRun => push_take(text, setup, local, local.run_or_none()),
        _ => Ok(()),
    }
}

/// While a string is moved to the node list.
#[tactic(auto, unfolding(crate::specs::AtOnce::move_change))]
fn push_move(text: &mut Vec<u8>, before: &Before, spot: MoveSetSpot) -> Result<(), NoMemory>
    ensures { OnOk result (text.new.items ≡ text.old.items ++ spec.move_change before.now spot) }
{
    match spot {
        MoveSetSpot::ChooseFront => push_front_of(text, before.string),
        MoveSetSpot::PutTail => push_tail(text, before.frame),
        _ => Ok(()),
    }
}

/// In a trim.
#[tactic(auto, unfolding(crate::specs::AtOnce::trim_change))]
fn push_trim(
    text: &mut Vec<u8>,
    frames: &[u16],
    local: &Local,
    spot: TrimSpot,
) -> Result<(), NoMemory>
    ensures { OnOk result (text.new.items ≡
        text.old.items ++ spec.trim_change frames.now local.now spot) }
{
    match spot {
        TrimSpot::ScanNode => push_scan(text, frames, local, local.spot()),
        TrimSpot::DropScanned => push_off(text, local.hand().frame),
        _ => Ok(()),
    }
}

/// A run of a checked cache: taken by an allocation, put back by a free.
#[tactic(auto, unfolding(crate::specs::AtOnce::run_change))]
fn push_move_run(
    text: &mut Vec<u8>,
    setup: &Setup,
    before: &Before,
    local: &Local,
    kind: CallKind,
) -> Result<(), NoMemory>
    ensures { OnOk result (text.new.items ≡
        text.old.items ++ spec.run_change setup.now before.now local.now kind) }
{
    match kind {
        CallKind::Alloc => push_take(text, setup, local, local.run_or_none()),
        _ => push_back(text, before.run),
    }
}

/// In a call of a checked cache.
#[tactic(auto, unfolding(crate::specs::AtOnce::checked_change))]
fn push_checked(
    text: &mut Vec<u8>,
    setup: &Setup,
    before: &Before,
    local: &Local,
    spot: CheckedSpot,
    kind: CallKind,
    reply: Option<Reply>,
) -> Result<(), NoMemory>
    ensures { OnOk result (text.new.items ≡
        text.old.items ++ spec.checked_change setup.now before.now local.now spot kind reply) }
{
    match spot {
        CheckedSpot::DoChecked => push_do(text, local, local.call(), reply),
        CheckedSpot::MoveRun => push_move_run(text, setup, before, local, kind),
        CheckedSpot::AddSlab => push_add(text, before.run, reply),
        _ => Ok(()),
    }
}

/// What is said of the change at the spot where the worker stood; `local` is how it is after it.
#[tactic(auto, unfolding(crate::specs::AtOnce::change_says))]
pub(crate) fn push_change_says(
    text: &mut Vec<u8>,
    setup: &Setup,
    values: &[Guarded],
    before: &Before,
    local: &Local,
    reply: Option<Reply>,
) -> Result<(), NoMemory>
    ensures { OnOk result (text.new.items ≡ text.old.items
        ++ spec.change_says setup.now (node_of (values_of values.now) local.now) before.now local.now before.now.spot reply) }
{
    let frames = node(values, local.cache());
    match before.spot {
        Spot::InAlloc(spot) => push_alloc(text, setup, frames, local, spot),
        Spot::InPutAway(PutAwaySpot::PutNode, _) => push_put(text, before.frame, local),
        Spot::InDiscard(DiscardSpot::PutRun, _) => push_back(text, before.run),
        Spot::InFree(FreeSpot::TakeOff) => push_take_off(text, local, local.spot()),
        Spot::InMoveSet(spot, _) => push_move(text, before, spot),
        Spot::InTrim(spot) => push_trim(text, frames, local, spot),
        Spot::InChecked(spot, kind) => push_checked(text, setup, before, local, spot, kind, reply),
        _ => Ok(()),
    }
}
