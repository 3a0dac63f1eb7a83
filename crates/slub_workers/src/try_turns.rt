//! The turns of a try, which are those of the fast path alone.

ghost use Rattle.std.specs.Prelude.{◌≡◌, true};
ghost use Rattle.slub_core.specs.Setup.{Setup};
ghost use Rattle.slub_core.specs.Steps.{begun};
ghost use Rattle.slub_turns.specs.Fits.{BeginFits};
ghost use Rattle.slub_turns.specs.Quick.{spot_of};
ghost use Rattle.slub_workers.specs.Rule.{setup_in};
ghost use Rattle.slub_workers.specs.Sits.{Sits, MayStand, HasTurned};
ghost use Rattle.slub_workers.specs.Tables.{begun_at, table_of};
ghost use Rattle.slub_workers.specs.Try.{MayTry};
ghost use Rattle.slub_workers.specs.Workers.{MayTurnAt, worker_in};

use crate::quick::quick_turn;
use crate::rule::Naming;
use crate::shared::{Shared, WorkerSeat};
use crate::standing::Standing;
use crate::worker::{Worker, one_more};
use slub_core::call::Call;
use slub_core::spot::{AllocSpot, Spot};
use slub_core::step::{Answer, Step};
use slub_core::worker_local::Local;
use slub_turns::laws::{picks_fit, turns_keep_ready};
use slub_turns::quick::Quick;
use std::marker::Brand;

/// A worker that may try its next call begins it, as a try.
#[inline(always)]
fn begin_try(local: &mut Local)
    requires fits { BeginFits local.old local.old.spot }
    requires may { (m : Setup) × MayTry m local.old }
    ensures { (m : Setup) → MayTry m local.old → local.new ≡ begun m true local.old }
{
    let Call::Alloc {
        cpu,
        cache,
        place,
        ..
    } = local.call()
    else {
        unreachable!()
    };
    local.begin(
        Spot::InAlloc(AllocSpot::LoadCpu),
        cache.unwrap_or(0),
        cpu as u8,
        place,
        true,
    );
}

/// The turn with which a try begins: it loads the CPU word.
#[inline(always)]
fn first_turn<N: Naming>(
    shared: &Shared,
    seat: &mut WorkerSeat,
    standing: &mut Standing,
) -> (Step, Answer)
    requires standing { N.standing ≡ standing.old }
    requires tries { N.tries ≡ true }
    requires key { N.key ≡ shared.now.words.shared.key }
    requires seat { seat.old.table_id ≡ shared.now.words.shared.table_id }
    requires sits { Sits seat.old.me standing.old }
    requires may { MayStand shared.now.words.shared.key standing.old }
    requires begins { MayTry (setup_in shared.now.words.shared.key) standing.old.local }
    ensures seat { seat.new.table_id ≡ seat.old.table_id }
    ensures sits { Sits seat.new.me standing.new }
    ensures may { MayStand shared.now.words.shared.key standing.new }
    ensures number { standing.new.local.worker ≡ standing.old.local.worker }
    ensures turned { HasTurned shared.now.words.shared.key true standing.old result standing.new }
{
    picks_fit();
    turns_keep_ready();
    standing.tried = true;
    standing.steps = one_more(standing.steps);
    begin_try(&mut standing.local);
    quick_turn::<N>(shared, seat, standing, Quick::LoadCpu)
}

/// A turn of a try that has begun, at this spot.
#[inline(always)]
fn next_turn<N: Naming>(
    shared: &Shared,
    seat: &mut WorkerSeat,
    standing: &mut Standing,
    spot: Quick,
) -> (Step, Answer)
    requires standing { N.standing ≡ standing.old }
    requires tries { N.tries ≡ true }
    requires key { N.key ≡ shared.now.words.shared.key }
    requires seat { seat.old.table_id ≡ shared.now.words.shared.table_id }
    requires sits { Sits seat.old.me standing.old }
    requires may { MayStand shared.now.words.shared.key standing.old }
    requires spot { standing.old.local.spot ≡ spot_of spot }
    ensures seat { seat.new.table_id ≡ seat.old.table_id }
    ensures sits { Sits seat.new.me standing.new }
    ensures may { MayStand shared.now.words.shared.key standing.new }
    ensures number { standing.new.local.worker ≡ standing.old.local.worker }
    ensures turned { HasTurned shared.now.words.shared.key true standing.old result standing.new }
{
    standing.tried = true;
    standing.steps = one_more(standing.steps);
    quick_turn::<N>(shared, seat, standing, spot)
}

impl Worker {
    /// Begins its next call as a try, and loads the CPU word.
    #[inline(always)]
    pub(crate) fn try_first(&mut self, shared: &Shared) -> (Step, Answer)
        requires may { MayTurnAt (begun_at shared.now) (table_of shared.now) self.old }
        requires begins { MayTry (setup_in (begun_at shared.now)) self.old.1.local }
        ensures may { MayTurnAt (begun_at shared.now) (table_of shared.now) self.new }
        ensures number { worker_in self.new ≡ worker_in self.old }
        ensures turned { HasTurned (begun_at shared.now) true self.old.1 result self.new.1 }
    {
        first_turn::<Brand>(shared, &mut self.seat, &mut self.standing)
    }

    /// Goes on with a try that has come to this spot.
    #[inline(always)]
    pub(crate) fn try_next(&mut self, shared: &Shared, spot: Quick) -> (Step, Answer)
        requires may { MayTurnAt (begun_at shared.now) (table_of shared.now) self.old }
        requires spot { self.old.1.local.spot ≡ spot_of spot }
        ensures may { MayTurnAt (begun_at shared.now) (table_of shared.now) self.new }
        ensures number { worker_in self.new ≡ worker_in self.old }
        ensures turned { HasTurned (begun_at shared.now) true self.old.1 result self.new.1 }
    {
        next_turn::<Brand>(shared, &mut self.seat, &mut self.standing, spot)
    }
}
