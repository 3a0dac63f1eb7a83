//! `get_partial_node`, `allocate_slab`: what an allocation does at once, under a lock that it has.

ghost use Rattle.std.specs.Prelude.{◌≡◌};
ghost use Rattle.slub_core.specs.Setup.{Means};
ghost use Rattle.slub_core.specs.Alloc.{alloc_at_once, asks_for_another};
ghost use Rattle.slub_core.specs.Facts.{setup_of};
ghost use Rattle.slub_core.specs.Values.{values_of, rooms_of, HasPool};
ghost use Rattle.slub_core.specs.Ways.{changed};
ghost use Rattle.slub_alloc_paths.specs.Fits.{AtOnceFits, HasHand};

use crate::words::way_of_run;
use slub_core::guarded::Guarded;
use slub_core::setup::Setup;
use slub_core::spot::{AllocSpot, Spot};
use slub_core::values;
use slub_core::ways::bare_hand;
use slub_core::worker_local::Local;
use slub_trace::reply::Reply;

/// Changes the node list or the pool at a spot that calls for no step, and leads the worker on; at any other spot
/// nothing changes.
pub fn alloc_at_once(
    setup: &Setup,
    values: &mut [Guarded],
    local: &mut Local,
    spot: AllocSpot,
) -> Option<Reply>
    requires { AtOnceFits values.old local.old spot }
    ensures change { (means : Means) → changed values.new local.new result ≡ alloc_at_once (setup_of setup.now means) (values_of values.old) local.old spot }
    ensures rooms { rooms_of values.new ≡ rooms_of values.old }
{
    match spot {
        AllocSpot::PopNode => pop_node(setup, values, local),
        AllocSpot::TakeRun => take_run(setup, values, local),
        _ => None,
    }
}

/// Pops the head of the node list, where another slab is asked for (`get_partial_node`).
fn pop_node(setup: &Setup, values: &mut [Guarded], local: &mut Local) -> Option<Reply>
    requires { HasHand local.old }
    ensures change { (means : Means) → changed values.new local.new result ≡ alloc_at_once (setup_of setup.now means) (values_of values.old) local.old AllocSpot.PopNode }
    ensures rooms { rooms_of values.new ≡ rooms_of values.old }
{
    if !asks_for_another(setup, local) {
        local.at(Spot::InAlloc(AllocSpot::GiveNode));
        return None;
    }
    match values::pop_node(values, local.cache()) {
        Some(frame) => {
            local.with_hand(bare_hand(frame));
            local.at(Spot::InAlloc(AllocSpot::LoadPopped));
            None
        }
        None => {
            local.at(Spot::InAlloc(AllocSpot::GiveNode));
            None
        }
    }
}

/// One slab is taken, and then up to half of what the CPU's list is to hold, and one (`get_partial_node`).
fn asks_for_another(setup: &Setup, local: &Local) -> bool
    ensures { (means : Means) → result ≡ asks_for_another (setup_of setup.now means) local.now }
{
    local.hand_count() == 0 || local.put() <= setup.layout(local.cache()).cpu_partial_slabs / 2
}

/// Takes a run of frames for a new slab (`allocate_slab`).
fn take_run(setup: &Setup, values: &mut [Guarded], local: &mut Local) -> Option<Reply>
    requires { HasPool values.old }
    ensures change { (means : Means) → changed values.new local.new result ≡ alloc_at_once (setup_of setup.now means) (values_of values.old) local.old AllocSpot.TakeRun }
    ensures rooms { rooms_of values.new ≡ rooms_of values.old }
{
    let layout = setup.layout(local.cache());
    let found = values::take_run(values, &layout);
    local.at(way_of_run(found));
    match found {
        Some(_) => {
            local.set_run(found);
            None
        }
        None => Some(Reply::NoFrames),
    }
}
