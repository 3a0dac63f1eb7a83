//! `alloc_single_from_partial`, `alloc_single_from_new_slab`, `free_debug_processing`: the calls of
//! a checked cache, spot by spot (writes, reads and pokes are profile).

ghost use Rattle.std.specs.Prelude.{◌≡◌};
ghost use Rattle.slub_core.specs.Setup.{Means, node_lock, pool_lock};
ghost use Rattle.slub_core.specs.World.{pool_in};
ghost use Rattle.slub_core.specs.Checked as core;
ghost use Rattle.slub_core.specs.Local.{goes};
ghost use Rattle.slub_core.specs.Facts.{setup_of};
ghost use Rattle.slub_core.specs.Values.{values_of, rooms_of};
ghost use Rattle.slub_core.specs.Ways.{turned, changed};
ghost use Rattle.slub_checked_paths.specs.Slabs.{slabs_at, is_refused};
ghost use Rattle.slub_checked_paths.specs.Turns.{given_turn, freed_turn, way_of_spare};
ghost use Rattle.slub_checked_paths.specs.Fits.{CheckedFits};

use crate::slabs;
use slub_core::call::{Call, CallKind};
use slub_core::guarded::Guarded;
use slub_core::local::FrameRun;
use slub_core::setup::Setup;
use slub_core::spot::{CheckedSpot, Spot};
use slub_core::step::{Answer, Step};
use slub_core::worker_local::Local;
use slub_core::{ops, values};
use slub_red_zone::checked::CheckedGive;
use slub_trace::reply::Reply;

/// The step that a spot of such a call calls for.
pub fn checked_step(local: &Local, spot: CheckedSpot) -> Step
    ensures { result ≡ core.checked_step local.now spot }
{
    match spot {
        CheckedSpot::LockChecked => ops::take_node(local),
        CheckedSpot::DoChecked => ops::no_step(),
        CheckedSpot::LockRun => ops::take_pool(local),
        CheckedSpot::MoveRun => ops::no_step(),
        CheckedSpot::AddSlab => ops::no_step(),
        CheckedSpot::GiveRun => ops::give_pool(local),
        CheckedSpot::GiveChecked => ops::give_node(local),
    }
}

/// Where the answer to that step leads.
pub fn checked_advance(local: &mut Local, spot: CheckedSpot, kind: CallKind, answer: Answer)
    ensures { goes local.new ≡ core.checked_advance local.old spot kind answer }
{
    match (spot, answer) {
        (CheckedSpot::LockChecked, Answer::Won) => {
            local.at(Spot::InChecked(CheckedSpot::DoChecked, kind));
        }
        (CheckedSpot::LockRun, Answer::Won) => {
            local.at(Spot::InChecked(CheckedSpot::MoveRun, kind));
        }
        (CheckedSpot::GiveRun, Answer::Done) => {
            local.at(Spot::InChecked(CheckedSpot::GiveChecked, kind));
        }
        (CheckedSpot::GiveChecked, Answer::Done) => local.at(Spot::Between),
        _ => {}
    }
}

/// What is done at once under the lock, and the reply that the call has by it. The reply NoMemory tells that memory
/// was refused for the bytes of a new slab.
pub fn checked_at_once(
    setup: &Setup,
    values: &mut [Guarded],
    local: &mut Local,
    spot: CheckedSpot,
    kind: CallKind,
) -> Option<Reply>
    requires { CheckedFits values.old local.old spot kind }
    ensures change { (means : Means) → changed values.new local.new result ≡ core.checked_at_once (setup_of setup.now means) (is_refused result) (values_of values.old) local.old spot kind }
    ensures rooms { rooms_of values.new ≡ rooms_of values.old }
{
    match spot {
        CheckedSpot::DoChecked => do_checked(setup, values, local, kind),
        CheckedSpot::MoveRun => move_run(setup, values, local, kind),
        CheckedSpot::AddSlab => add_slab(setup, values, local, kind),
        _ => None,
    }
}

/// The call itself.
fn do_checked(
    setup: &Setup,
    values: &mut [Guarded],
    local: &mut Local,
    kind: CallKind,
) -> Option<Reply>
    requires { CheckedFits values.old local.old CheckedSpot.DoChecked kind }
    ensures change { (means : Means) → changed values.new local.new result ≡ core.do_checked (setup_of setup.now means) (values_of values.old) local.old kind (slabs_at (values_of values.old (node_lock local.old.cache))) }
    ensures rooms { rooms_of values.new ≡ rooms_of values.old }
{
    match kind {
        CallKind::Alloc => do_alloc(setup, values, local),
        CallKind::Free => do_free(setup, values, local),
        CallKind::Write => do_write(setup, values, local),
        CallKind::Read => do_read(setup, values, local),
        CallKind::Poke => do_poke(setup, values, local),
        CallKind::Trim => None,
        CallKind::Flush => None,
    }
}

/// An object is given, or a new slab is looked for.
fn do_alloc(setup: &Setup, values: &mut [Guarded], local: &mut Local) -> Option<Reply>
    requires { CheckedFits values.old local.old CheckedSpot.DoChecked CallKind.Alloc }
    ensures change { (means : Means) → changed values.new local.new result ≡ core.do_checked (setup_of setup.now means) (values_of values.old) local.old CallKind.Alloc (slabs_at (values_of values.old (node_lock local.old.cache))) }
    ensures rooms { rooms_of values.new ≡ rooms_of values.old }
{
    let give = slabs::give_in(values, local.cache());
    given(setup, local, give)
}

/// The worker has the object that was given, or goes to look for a run.
fn given(setup: &Setup, local: &mut Local, give: CheckedGive) -> Option<Reply>
    ensures { turned local.new result ≡ given_turn setup.now local.old give }
{
    let cache = local.cache();
    match give {
        CheckedGive::Given(slot) => {
            local.gets(cache, slot.frame, slot.index);
            local.at(Spot::InChecked(CheckedSpot::GiveChecked, CallKind::Alloc));
            Some(Reply::Given(setup.address(cache, slot.frame, slot.index)))
        }
        CheckedGive::Empty => {
            local.at(Spot::InChecked(CheckedSpot::LockRun, CallKind::Alloc));
            None
        }
    }
}

/// An object is taken back, with the run of its slab where that is spare; or it is damaged, and its worker holds it
/// still.
fn do_free(setup: &Setup, values: &mut [Guarded], local: &mut Local) -> Option<Reply>
    requires { CheckedFits values.old local.old CheckedSpot.DoChecked CallKind.Free }
    ensures change { (means : Means) → changed values.new local.new result ≡ core.do_checked (setup_of setup.now means) (values_of values.old) local.old CallKind.Free (slabs_at (values_of values.old (node_lock local.old.cache))) }
    ensures rooms { rooms_of values.new ≡ rooms_of values.old }
{
    let cache = local.cache();
    let limit = setup.layout(cache).min_partial;
    match slabs::take_back_in(values, cache, slabs::slot_of(local), limit) {
        Ok(run) => Some(freed(setup, local, run)),
        Err(damage) => {
            local.at(Spot::InChecked(CheckedSpot::GiveChecked, CallKind::Free));
            Some(Reply::Corrupt(damage))
        }
    }
}

/// The worker holds the object no more, and has the run of its slab in hand where that was spare.
fn freed(setup: &Setup, local: &mut Local, run: Option<FrameRun>) -> Reply
    ensures { turned local.new (Some result) ≡ freed_turn setup.now local.old run }
{
    let here = local.here();
    local.loses();
    local.set_run(run);
    local.at(way_of_taken(run));
    Reply::Freed(setup.address(here.cache, here.frame, here.index))
}

/// A run in hand is to be put back.
fn way_of_taken(run: Option<FrameRun>) -> Spot
    ensures { result ≡ way_of_spare run }
{
    match run {
        None => Spot::InChecked(CheckedSpot::GiveChecked, CallKind::Free),
        Some(_) => Spot::InChecked(CheckedSpot::LockRun, CallKind::Free),
    }
}

/// A word is written.
fn do_write(setup: &Setup, values: &mut [Guarded], local: &mut Local) -> Option<Reply>
    requires { CheckedFits values.old local.old CheckedSpot.DoChecked CallKind.Write }
    ensures change { (means : Means) → changed values.new local.new result ≡ core.do_checked (setup_of setup.now means) (values_of values.old) local.old CallKind.Write (slabs_at (values_of values.old (node_lock local.old.cache))) }
    ensures rooms { rooms_of values.new ≡ rooms_of values.old }
{
    let Call::Write { word, value, .. } = local.call() else {
        unreachable!()
    };
    slabs::set_word_in(values, local.cache(), slabs::slot_of(local), word, value);
    local.at(Spot::InChecked(CheckedSpot::GiveChecked, CallKind::Write));
    Some(Reply::Wrote)
}

/// A word is read.
fn do_read(setup: &Setup, values: &mut [Guarded], local: &mut Local) -> Option<Reply>
    requires { CheckedFits values.old local.old CheckedSpot.DoChecked CallKind.Read }
    ensures change { (means : Means) → changed values.new local.new result ≡ core.do_checked (setup_of setup.now means) (values_of values.old) local.old CallKind.Read (slabs_at (values_of values.old (node_lock local.old.cache))) }
    ensures rooms { rooms_of values.new ≡ rooms_of values.old }
{
    let Call::Read { word, .. } = local.call() else {
        unreachable!()
    };
    let lock = usize::from(local.cache()) + 1;
    let value = slabs::word(&values[lock], slabs::slot_of(local), word);
    local.at(Spot::InChecked(CheckedSpot::GiveChecked, CallKind::Read));
    Some(Reply::Value(value))
}

/// A byte is written in a slot.
fn do_poke(setup: &Setup, values: &mut [Guarded], local: &mut Local) -> Option<Reply>
    requires { CheckedFits values.old local.old CheckedSpot.DoChecked CallKind.Poke }
    ensures change { (means : Means) → changed values.new local.new result ≡ core.do_checked (setup_of setup.now means) (values_of values.old) local.old CallKind.Poke (slabs_at (values_of values.old (node_lock local.old.cache))) }
    ensures rooms { rooms_of values.new ≡ rooms_of values.old }
{
    let reply = slabs::poke_in(values, local.cache(), local);
    local.at(Spot::InChecked(CheckedSpot::GiveChecked, CallKind::Poke));
    Some(reply)
}

/// A run is looked for, or put back.
fn move_run(
    setup: &Setup,
    values: &mut [Guarded],
    local: &mut Local,
    kind: CallKind,
) -> Option<Reply>
    requires { CheckedFits values.old local.old CheckedSpot.MoveRun kind }
    ensures change { (means : Means) → changed values.new local.new result ≡ core.move_run (setup_of setup.now means) (values_of values.old) local.old kind (pool_in (values_of values.old pool_lock)) }
    ensures rooms { rooms_of values.new ≡ rooms_of values.old }
{
    match kind {
        CallKind::Alloc => take_run(setup, values, local),
        _ => {
            values::put_run(values, local.run_or_none());
            local.set_run(None);
            local.at(Spot::InChecked(CheckedSpot::GiveRun, kind));
            None
        }
    }
}

/// A run is looked for (`allocate_slab`).
fn take_run(setup: &Setup, values: &mut [Guarded], local: &mut Local) -> Option<Reply>
    requires { CheckedFits values.old local.old CheckedSpot.MoveRun CallKind.Alloc }
    ensures change { (means : Means) → changed values.new local.new result ≡ core.move_run (setup_of setup.now means) (values_of values.old) local.old CallKind.Alloc (pool_in (values_of values.old pool_lock)) }
    ensures rooms { rooms_of values.new ≡ rooms_of values.old }
{
    let layout = setup.layout(local.cache());
    let found = values::take_run(values, &layout);
    local.at(way_of_found(found));
    match found {
        Some(_) => {
            local.set_run(found);
            None
        }
        None => Some(Reply::NoFrames),
    }
}

/// Where a run that was found or not leads to.
fn way_of_found(found: Option<FrameRun>) -> Spot
    ensures { result ≡ core.way_of_found found }
{
    match found {
        None => Spot::InChecked(CheckedSpot::GiveRun, CallKind::Alloc),
        Some(_) => Spot::InChecked(CheckedSpot::AddSlab, CallKind::Alloc),
    }
}

/// The run becomes a slab, and its first object is given; or there is no memory for its bytes, and the frames are put
/// back (`alloc_single_from_new_slab`).
fn add_slab(
    setup: &Setup,
    values: &mut [Guarded],
    local: &mut Local,
    kind: CallKind,
) -> Option<Reply>
    requires { CheckedFits values.old local.old CheckedSpot.AddSlab kind }
    ensures change { (means : Means) → changed values.new local.new result ≡ core.checked_at_once (setup_of setup.now means) (is_refused result) (values_of values.old) local.old CheckedSpot.AddSlab kind }
    ensures rooms { rooms_of values.new ≡ rooms_of values.old }
{
    let cache = local.cache();
    let run = local.run_or_none();
    match slabs::add_slab(&mut values[usize::from(cache) + 1], run) {
        Ok(()) => {
            local.gets(cache, run.frame, 0);
            local.set_run(None);
            local.at(Spot::InChecked(CheckedSpot::GiveRun, CallKind::Alloc));
            Some(Reply::Given(setup.address(cache, run.frame, 0)))
        }
        Err(_) => {
            values::put_run(values, run);
            local.set_run(None);
            local.at(Spot::InChecked(CheckedSpot::GiveRun, CallKind::Alloc));
            Some(Reply::NoMemory)
        }
    }
}
