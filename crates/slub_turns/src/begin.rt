//! Between two calls: the replies that take no step, and the begin of a call.

ghost use Rattle.std.specs.Prelude.{◌≡◌, ◌<◌, map, slice_index_or};
ghost use Rattle.slub_core.specs.Calls.{call_kind, call_cpu, call_place};
ghost use Rattle.slub_core.specs.Local.{nobody};
ghost use Rattle.slub_core.specs.Setup.{Means};
ghost use Rattle.slub_core.specs.Steps as core;
ghost use Rattle.slub_core.specs.Facts.{setup_of};
ghost use Rattle.slub_turns.specs.Fits.{BeginFits};
ghost use Rattle.slub_schedule.specs.Schedule as schedule;

use slub_core::call::{Call, CallKind};
use slub_core::local::Known;
use slub_core::setup::Setup;
use slub_core::spot::{AllocSpot, CheckedSpot, FreeSpot, OfflineSpot, Spot, Sweep};
use slub_core::worker_local::Local;
use slub_object_layout::layout::Layout;
use slub_trace::reply::Reply;

/// Whether a word of an object lies outside of it.
fn is_outside(layout: &Layout, word: u32) -> bool
    ensures { result ≡ core.is_outside layout.now word }
{
    let end = 8 * (u64::from(word) + 1);
    end > u64::from(layout.object_size)
}

/// The reply to a write or a read of this word that takes no step.
fn told_of_use(setup: &Setup, known: Known, word: u32) -> Option<Reply>
    ensures { (means : Means) → result ≡ core.told_of_use (setup_of setup.now means) known word }
{
    if !known.held {
        return Some(Reply::NotHeld);
    }
    let layout = setup.layout(known.cache);
    if is_outside(&layout, word) {
        Some(Reply::OutOfObject)
    } else {
        None
    }
}

/// The reply to a poke that takes no step.
fn told_of_poke(setup: &Setup, known: Known) -> Option<Reply>
    ensures { (means : Means) → result ≡ core.told_of_poke (setup_of setup.now means) known }
{
    if known.frame == 0 {
        return Some(Reply::NotHeld);
    }
    if !setup.checks(known.cache) {
        return Some(Reply::NotChecked);
    }
    None
}

/// The reply to an allocation that takes no step.
#[inline(always)]
fn told_of_alloc(cache: Option<u8>) -> Option<Reply>
    ensures { result ≡ core.told_of_alloc cache }
{
    match cache {
        None => Some(Reply::NoSuchCache),
        Some(_) => None,
    }
}

/// The reply to a trim that takes no step.
fn told_of_trim(setup: &Setup, cache: Option<u8>) -> Option<Reply>
    ensures { (means : Means) → result ≡ core.told_of_trim (setup_of setup.now means) cache }
{
    match cache {
        None => Some(Reply::NoSuchCache),
        Some(cache) if setup.checks(cache) => Some(Reply::Checked),
        Some(_) => None,
    }
}

/// The reply to a flush that takes no step.
fn told_of_flush(setup: &Setup) -> Option<Reply>
    ensures { (means : Means) → (known : _) → (call : _) → result ≡ core.told_at_once (setup_of setup.now means) known call CallKind.Flush }
{
    if setup.plain().is_empty() {
        Some(Reply::Flushed(0))
    } else {
        None
    }
}

/// The reply of a call that takes no step; None where it takes one.
#[inline(always)]
fn told_at_once(setup: &Setup, local: &Local, call: Call) -> Option<Reply>
    ensures { (means : Means) → result ≡ core.told_at_once (setup_of setup.now means) (slice_index_or local.now.known (call_place call) nobody) call (call_kind call) }
{
    match call {
        Call::Alloc { cache, .. } => told_of_alloc(cache),
        Call::Free { .. } => None,
        Call::Write { place, word, .. } => told_of_use(setup, local.known_at(place), word),
        Call::Read { place, word, .. } => told_of_use(setup, local.known_at(place), word),
        Call::Poke { place, .. } => told_of_poke(setup, local.known_at(place)),
        Call::Trim { cache } => told_of_trim(setup, cache),
        Call::Flush { .. } => told_of_flush(setup),
    }
}

/// A worker between two calls has the replies that take no step.
#[inline(always)]
pub fn rest(setup: &Setup, local: &mut Local)
    ensures { (means : Means) → local.new ≡ core.rested (setup_of setup.now means) local.old }
{
    if let Spot::Between = local.spot() {
        rest_with(setup, local);
    }
}

/// The calls come to one that takes a step, or to their end.
#[inline(always)]
fn rest_with(setup: &Setup, local: &mut Local)
    ensures { (means : Means) → local.new ≡ core.rested_with (setup_of setup.now means) local.old.todo local.old }
{
    while local.has_call() {
        let call = local.call();
        match told_at_once(setup, local, call) {
            Some(reply) => local.answered(reply),
            None => return,
        }
    }
}

/// The oldest cache that isn't checked; 0 where there is none.
fn oldest(setup: &Setup) -> u8
    ensures { (means : Means) → (known : _) → (named : _) → result ≡ core.cache_for (setup_of setup.now means) known named CallKind.Flush }
{
    match setup.plain().first() {
        Some(cache) => *cache,
        None => 0,
    }
}

/// The first spot of a call, by whether its cache is checked and whether the worker holds its object.
#[inline(always)]
fn first_spot(kind: CallKind, checked: bool, held: bool) -> Spot
    ensures { result ≡ core.first_spot kind checked held }
{
    match (kind, checked, held) {
        (CallKind::Alloc, false, _) => Spot::InAlloc(AllocSpot::LoadCpu),
        (CallKind::Free, _, false) => Spot::InFree(FreeSpot::TakeBoard),
        (CallKind::Free, false, true) => Spot::InFree(FreeSpot::LoadOwn),
        (CallKind::Write, false, _) => Spot::WriteWord,
        (CallKind::Read, false, _) => Spot::ReadWord,
        (CallKind::Trim, _, _) => Spot::InOffline(OfflineSpot::LoadCurrent, Sweep::Trimming),
        (CallKind::Flush, _, _) => Spot::InOffline(OfflineSpot::LoadCurrent, Sweep::Flushing),
        (kind, _, _) => Spot::InChecked(CheckedSpot::LockChecked, kind),
    }
}

/// A worker begins a call of this kind.
#[inline(always)]
fn begin_at(
    setup: &Setup,
    local: &mut Local,
    kind: CallKind,
    cache: u8,
    cpu: u8,
    place: usize,
    tries: bool,
)
    ensures { (means : Means) → local.new ≡ record local.old { spot = core.first_spot kind ((setup_of setup.now means).checks cache) (slice_index_or local.old.known place nobody).held; cache = cache; cpu = cpu; place = place; fast = tries; turn = 0; count = 0 } }
{
    let held = local.known_at(place).held;
    let spot = first_spot(kind, setup.checks(cache), held);
    local.begin(spot, cache, cpu, place, tries);
}

/// A worker begins this call; as a try, where `tries` says so. The cache is the one that the call names, or that of its
/// object; a trim begins with CPU 0, and a flush with the oldest cache.
#[inline(always)]
fn begin_call(setup: &Setup, local: &mut Local, call: Call, tries: bool)
    requires { call_cpu call < 256 }
    ensures { (means : Means) → local.new ≡ core.begun_call (setup_of setup.now means) tries local.old call }
{
    let kind = call.kind();
    match call {
        Call::Alloc {
            cpu,
            cache,
            place,
            ..
        } => {
            begin_at(
                setup,
                local,
                kind,
                cache.unwrap_or(0),
                cpu as u8,
                place,
                tries,
            )
        }
        Call::Free { cpu, place, .. } => {
            let cache = local.known_at(place).cache;
            begin_at(setup, local, kind, cache, cpu as u8, place, tries)
        }
        Call::Write { place, .. } => {
            let cache = local.known_at(place).cache;
            begin_at(setup, local, kind, cache, 0, place, tries)
        }
        Call::Read { place, .. } => {
            let cache = local.known_at(place).cache;
            begin_at(setup, local, kind, cache, 0, place, tries)
        }
        Call::Poke { place, .. } => {
            let cache = local.known_at(place).cache;
            begin_at(setup, local, kind, cache, 0, place, tries)
        }
        Call::Trim { cache } => begin_at(setup, local, kind, cache.unwrap_or(0), 0, 0, tries),
        Call::Flush { cpu } => begin_at(setup, local, kind, oldest(setup), cpu as u8, 0, tries),
    }
}

/// A worker between two calls begins its next one; as a try, where `tries` says so.
#[inline(always)]
pub fn begin(setup: &Setup, local: &mut Local, tries: bool)
    requires { BeginFits local.old local.old.spot }
    ensures { (means : Means) → local.new ≡ core.begun (setup_of setup.now means) tries local.old }
{
    if let Spot::Between = local.spot() {
        if local.has_call() {
            let call = local.call();
            begin_call(setup, local, call, tries);
        }
    }
}

/// Whether the worker is in no call and each of its calls has a reply.
#[inline(always)]
pub fn is_finished(local: &Local) -> bool
    ensures { result ≡ schedule.is_finished local.now }
{
    match local.spot() {
        Spot::Between => !local.has_call(),
        _ => false,
    }
}

/// Each of the workers has the replies that take no step.
pub fn rest_all(setup: &Setup, locals: &mut [Local])
    ensures { (means : Means) → locals.new ≡ map (core.rested (setup_of setup.now means)) locals.old }
{
    for local in locals {
        rest(setup, local);
    }
}
