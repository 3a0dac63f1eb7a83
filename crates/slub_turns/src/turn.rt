//! The turn of one worker.

ghost use Rattle.std.specs.Prelude.{◌≡◌, List, false};
ghost use Rattle.slub_core.specs.Setup.{Means};
ghost use Rattle.slub_core.specs.Run.{turn};
ghost use Rattle.slub_core.specs.declared.guarded.Guarded.{Guarded};
ghost use Rattle.slub_core.specs.Facts.{setup_of};
ghost use Rattle.slub_core.specs.Values.{rooms_of};
ghost use Rattle.slub_turns.specs.Fits.{PickFits, HasRooms, TurnFits};
ghost use Rattle.slub_turns.specs.Quick.{spot_of};
ghost use Rattle.slub_turns.specs.System.{alone, picked_alone, IsTableFor, FitsAlone, LeadsAlone};

use crate::advance::advance_at;
use crate::at_once::settle;
use crate::begin::{begin, rest};
use crate::quick::{Quick, lead, quick_step};
use crate::step::step_at;
use slub_core::guarded::Guarded;
use slub_core::setup::Setup;
use slub_core::spot::Spot::{InAlloc, InFree};
use slub_core::spot::{AllocSpot, FreeSpot, Spot};
use slub_core::worker_local::Local;
use slub_free_paths::free::{free_advance, free_step};
use slub_schedule::table::Table;

/// The turn of a worker at this spot of a fast path, which has begun its call, whatever the locks guard. Memory isn't
/// refused in it.
#[inline(always)]
fn quick_turn(setup: &Setup, table: &mut Table, local: &mut Local, spot: Quick) -> bool
    requires table { IsTableFor setup.now table.old }
    requires fits { (means : Means) × (values : List Guarded) × TurnFits (setup_of setup.now means) false (alone table.old values local.old) local.old }
    requires spot { local.old.spot ≡ spot_of spot }
    ensures refused { result ≡ false }
    ensures turned { (values : List Guarded) → LeadsAlone setup.now result table.old values local.old table.new values local.new }
    ensures table { IsTableFor setup.now table.new }
{
    let step = quick_step(setup, local, spot);
    let heard = table.apply(step);
    lead(setup, local, spot, heard);
    false
}

/// The turn of a worker at this spot, which has begun its call. Whether memory was refused in it.
#[inline(never)]
fn turn_at(
    setup: &Setup,
    table: &mut Table,
    values: &mut [Guarded],
    local: &mut Local,
    spot: Spot,
) -> bool
    requires table { IsTableFor setup.now table.old }
    requires fits { FitsAlone setup.now table.old values.old local.old }
    requires spot { spot ≡ local.old.spot }
    ensures turned { LeadsAlone setup.now result table.old values.old local.old table.new values.new local.new }
    ensures table { IsTableFor setup.now table.new }
    ensures rooms { rooms_of values.new ≡ rooms_of values.old }
{
    let step = step_at(setup, values, local, spot);
    let answer = table.apply(step);
    let reply = advance_at(setup, values, local, spot, answer);
    let refused = settle(setup, values, local, reply);
    rest(setup, local);
    refused
}

/// The turn of a worker at this spot of a free, which has begun its call. Whether memory was refused in it.
#[inline(always)]
fn free_at(
    setup: &Setup,
    table: &mut Table,
    values: &mut [Guarded],
    local: &mut Local,
    spot: FreeSpot,
) -> bool
    requires table { IsTableFor setup.now table.old }
    requires fits { FitsAlone setup.now table.old values.old local.old }
    requires spot { Spot.InFree spot ≡ local.old.spot }
    ensures turned { LeadsAlone setup.now result table.old values.old local.old table.new values.new local.new }
    ensures table { IsTableFor setup.now table.new }
    ensures rooms { rooms_of values.new ≡ rooms_of values.old }
{
    let step = free_step(setup, local, spot);
    let told = table.apply(step);
    let reply = free_advance(setup, local, spot, told);
    let refused = settle(setup, values, local, reply);
    rest(setup, local);
    refused
}

/// The turn of a worker at this spot of a free off the fast path (`__slab_free`; LoadCount is of `put_cpu_partial`).
/// The spots at which most slow turns of a free are made are named, so that nothing is left to choose in them.
#[inline(never)]
fn free_turn(
    setup: &Setup,
    table: &mut Table,
    values: &mut [Guarded],
    local: &mut Local,
    spot: FreeSpot,
) -> bool
    requires table { IsTableFor setup.now table.old }
    requires fits { FitsAlone setup.now table.old values.old local.old }
    requires spot { Spot.InFree spot ≡ local.old.spot }
    ensures turned { LeadsAlone setup.now result table.old values.old local.old table.new values.new local.new }
    ensures table { IsTableFor setup.now table.new }
    ensures rooms { rooms_of values.new ≡ rooms_of values.old }
{
    match spot {
        FreeSpot::LoadSlab => free_at(setup, table, values, local, FreeSpot::LoadSlab),
        FreeSpot::LinkSlab => free_at(setup, table, values, local, FreeSpot::LinkSlab),
        FreeSpot::FreeSlab => free_at(setup, table, values, local, FreeSpot::FreeSlab),
        FreeSpot::LoadCount => free_at(setup, table, values, local, FreeSpot::LoadCount),
        _ => turn_at(setup, table, values, local, InFree(spot)),
    }
}

/// The turn of a worker that has begun its call: the spots of the fast paths have turns of their own, and so have those
/// of a free.
#[inline(always)]
fn turn_here(setup: &Setup, table: &mut Table, values: &mut [Guarded], local: &mut Local) -> bool
    requires table { IsTableFor setup.now table.old }
    requires fits { FitsAlone setup.now table.old values.old local.old }
    ensures turned { LeadsAlone setup.now result table.old values.old local.old table.new values.new local.new }
    ensures table { IsTableFor setup.now table.new }
    ensures rooms { rooms_of values.new ≡ rooms_of values.old }
{
    match local.spot() {
        InAlloc(AllocSpot::LoadCpu) => quick_turn(setup, table, local, Quick::LoadCpu),
        InAlloc(AllocSpot::LoadNext) => quick_turn(setup, table, local, Quick::LoadNext),
        InAlloc(AllocSpot::Pop) => quick_turn(setup, table, local, Quick::Pop),
        InFree(FreeSpot::LoadOwn) => quick_turn(setup, table, local, Quick::LoadOwn),
        InFree(FreeSpot::LinkOwn) => quick_turn(setup, table, local, Quick::LinkOwn),
        InFree(FreeSpot::Push) => quick_turn(setup, table, local, Quick::Push),
        InFree(spot) => free_turn(setup, table, values, local, spot),
        spot => turn_at(setup, table, values, local, spot),
    }
}

/// The turn of a worker: it begins a call where it is in none (as a try, where `tries` says so), makes a step, and goes
/// where the answer leads, with what is done at once after it and the replies that take no step. Whether memory was
/// refused in it.
#[inline(always)]
pub fn turn_of(
    setup: &Setup,
    table: &mut Table,
    values: &mut [Guarded],
    local: &mut Local,
    tries: bool,
) -> bool
    requires table { IsTableFor setup.now table.old }
    requires fits { (means : Means) × HasRooms (setup_of setup.now means) (rooms_of values.old) × PickFits (setup_of setup.now means) (alone table.old values.old local.old) (picked_alone tries) }
    ensures turned { (means : Means) → alone table.new values.new local.new ≡ turn (setup_of setup.now means) (alone table.old values.old local.old) (record { worker = 0; refused = result; tries = tries }) }
    ensures table { IsTableFor setup.now table.new }
    ensures rooms { rooms_of values.new ≡ rooms_of values.old }
{
    begin(setup, local, tries);
    turn_here(setup, table, values, local)
}
