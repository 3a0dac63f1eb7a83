//! A worker at its seat, and its turns.

ghost use Rattle.std.specs.Prelude.{◌≡◌, ◌||◌};
ghost use Rattle.slub_core.specs.Setup.{Means};
ghost use Rattle.slub_core.specs.Steps.{begun};
ghost use Rattle.slub_core.specs.Facts.{setup_of};
ghost use Rattle.slub_turns.specs.Fits.{BeginFits};
ghost use Rattle.slub_workers.specs.Sits.{Sits, MayStand, HasTurned, HasBegun, HasMade};
ghost use Rattle.slub_workers.specs.Standing.{counted};
ghost use Rattle.slub_workers.specs.Workers.{HasWorkedAt, MayTurnAt, MayWorkAt, worker_in};

use crate::quick::quick_turn;
use crate::rule::Naming;
use crate::shared::{Shared, WorkerSeat};
use crate::standing::Standing;
use crate::step::make;
use crate::waits::Waits;
use slub_core::setup::Setup;
use slub_core::spot::{AllocSpot, FreeSpot, Spot};
use slub_core::step::{Answer, Step};
use slub_core::worker_local::Local;
use slub_edges::gate::Gate;
use slub_turns::advance::advance_at;
use slub_turns::at_once::settle;
use slub_turns::begin::{begin, is_finished, rest};
use slub_turns::laws::{picks_fit, turns_keep_ready};
use slub_turns::quick::Quick;
use slub_turns::step::step_at;
use std::marker::{Brand, Model};
use std::sync::Wait;

/// A worker of a round by threads. Contracts see which table it has its seat at, and how it stands.
#[derive(Drop)]
pub struct Worker {
    pub(crate) seat: WorkerSeat,
    pub(crate) standing: Standing,
}

impl Model for Worker {
    ghost use Rattle.atomic_table.specs.Seated.{TableId};
    ghost use Rattle.slub_workers.specs.Standing.{Standing};
    ghost use Rattle.slub_workers.specs.Sits.{Sits};

    ghost Value = { TableId × Standing };

    ghost view = { λ w. (w.seat.table_id, w.standing) };

    ghost invariant = { λ w. Sits w.seat.me w.standing };
}

/// Whether a worker has tried, once it makes a turn more.
#[inline(always)]
fn tried_with(tried: bool, tries: bool) -> bool
    ensures { result ≡ (tried || tries) }
{
    tried || tries
}

/// A count of steps, with one step more.
#[inline(always)]
pub(crate) fn one_more(steps: u64) -> u64
    ensures { result ≡ counted steps 1 }
{
    steps.wrapping_add(1)
}

/// A worker between two calls begins its next one, as a try, where `tries` says so; in a call it stays as it is.
#[inline(always)]
fn begin_next(setup: &Setup, local: &mut Local, tries: bool)
    requires { BeginFits local.old local.old.spot }
    ensures { (means : Means) → local.new ≡ begun (setup_of setup.now means) tries local.old }
{
    if let Spot::Between = local.spot() {
        begin(setup, local, tries);
    }
}

/// The turn of a worker: it begins a call where it is in none (as a try, where `tries` says so), makes a step on the
/// table, and goes where the answer leads, with what is done at once after it and the replies that take no step. The
/// step, and what it answered.
#[inline(always)]
fn turn_of<N: Naming>(
    shared: &Shared,
    seat: &mut WorkerSeat,
    standing: &mut Standing,
    tries: bool,
) -> (Step, Answer)
    requires standing { N.standing ≡ standing.old }
    requires tries { N.tries ≡ tries }
    requires key { N.key ≡ shared.now.words.shared.key }
    requires seat { seat.old.table_id ≡ shared.now.words.shared.table_id }
    requires sits { Sits seat.old.me standing.old }
    requires may { MayStand shared.now.words.shared.key standing.old }
    ensures seat { seat.new.table_id ≡ seat.old.table_id }
    ensures sits { Sits seat.new.me standing.new }
    ensures may { MayStand shared.now.words.shared.key standing.new }
    ensures number { standing.new.local.worker ≡ standing.old.local.worker }
    ensures turned { HasTurned shared.now.words.shared.key tries standing.old result standing.new }
{
    picks_fit();
    turns_keep_ready();
    standing.tried = tried_with(standing.tried, tries);
    standing.steps = one_more(standing.steps);
    begin_next(&shared.setup, &mut standing.local, tries);
    turn_here::<N>(shared, seat, standing)
}

/// The turn of a worker that has begun its call: the spots of the fast paths have quick turns.
#[inline(always)]
fn turn_here<N: Naming>(
    shared: &Shared,
    seat: &mut WorkerSeat,
    standing: &mut Standing,
) -> (Step, Answer)
    requires key { N.key ≡ shared.now.words.shared.key }
    requires seat { seat.old.table_id ≡ shared.now.words.shared.table_id }
    requires begun { HasBegun N.key N.tries N.standing seat.old.me standing.old }
    ensures seat { seat.new.table_id ≡ seat.old.table_id }
    ensures made { HasMade N.key N.tries N.standing seat.new.me result standing.new }
{
    match standing.local.spot() {
        Spot::InAlloc(AllocSpot::LoadCpu) => {
            quick_turn::<N>(shared, seat, standing, Quick::LoadCpu)
        }
        Spot::InAlloc(AllocSpot::LoadNext) => {
            quick_turn::<N>(shared, seat, standing, Quick::LoadNext)
        }
        Spot::InAlloc(AllocSpot::Pop) => quick_turn::<N>(shared, seat, standing, Quick::Pop),
        Spot::InFree(FreeSpot::LoadOwn) => {
            quick_turn::<N>(shared, seat, standing, Quick::LoadOwn)
        }
        Spot::InFree(FreeSpot::LinkOwn) => {
            quick_turn::<N>(shared, seat, standing, Quick::LinkOwn)
        }
        Spot::InFree(FreeSpot::Push) => quick_turn::<N>(shared, seat, standing, Quick::Push),
        _ => turn_at::<N>(shared, seat, standing),
    }
}

/// The turn of a worker that has begun its call, at whichever spot it is.
#[inline(never)]
fn turn_at<N: Naming>(
    shared: &Shared,
    seat: &mut WorkerSeat,
    standing: &mut Standing,
) -> (Step, Answer)
    requires key { N.key ≡ shared.now.words.shared.key }
    requires seat { seat.old.table_id ≡ shared.now.words.shared.table_id }
    requires begun { HasBegun N.key N.tries N.standing seat.old.me standing.old }
    ensures seat { seat.new.table_id ≡ seat.old.table_id }
    ensures made { HasMade N.key N.tries N.standing seat.new.me result standing.new }
{
    picks_fit();
    turns_keep_ready();
    let spot = standing.local.spot();
    let step = step_at(&shared.setup, &standing.values, &standing.local, spot);
    let answer = make::<N>(shared, seat, standing.values.as_mut_slice(), step);
    standing.answer = answer;
    let reply = advance_at(
        &shared.setup,
        &standing.values,
        &mut standing.local,
        spot,
        answer,
    );
    let _refused = settle(
        &shared.setup,
        standing.values.as_mut_slice(),
        &mut standing.local,
        reply,
    );
    rest(&shared.setup, &mut standing.local);
    (step, answer)
}

impl Worker {
    /// Makes a turn; a call that begins with it is a try, where `tries` says so. The step of it, and what it answered.
    #[inline(always)]
    pub(crate) fn turn(&mut self, shared: &Shared, tries: bool) -> (Step, Answer)
        requires { MayTurnAt shared.now.words.shared.key shared.now.words.shared.table_id self.old }
        ensures may { MayTurnAt shared.now.words.shared.key shared.now.words.shared.table_id self.new }
        ensures number { worker_in self.new ≡ worker_in self.old }
        ensures turned { HasTurned shared.now.words.shared.key tries self.old.1 result self.new.1 }
    {
        turn_of::<Brand>(shared, &mut self.seat, &mut self.standing, tries)
    }

    /// Makes turns until each of its calls has a reply; none is a try. It passes the gate before each of its events, and
    /// tells it at the end how often it had to wait.
    pub(crate) fn work<W: Wait, G: Gate>(mut self, wait: &W, gate: &G, shared: &Shared) -> Worker
        requires { MayWorkAt shared.now.words.shared.key shared.now.words.shared.table_id self }
        ensures worked { HasWorkedAt shared.now.words.shared.table_id result }
        ensures number { worker_in result ≡ worker_in self }
    {
        let mut passed = 0;
        let mut waits = Waits::new();
        for _ in wait.forever() {
            passed = pass(gate, &self.standing.local, passed);
            if is_finished(&self.standing.local) {
                gate.left(
                    u32::from(self.standing.local.worker()),
                    waits.lost,
                    waits.parked,
                );
                return self;
            }
            let (step, answer) = self.turn(shared, false);
            waits.pause(wait, shared, step, answer);
        }
        unreachable!()
    }
}

/// A worker that is in no call passes the gate for its events that have replies, and for the next one, but for as many
/// as it has passed it for already. For how many it has passed it then.
pub(crate) fn pass<G: Gate>(gate: &G, local: &Local, passed: usize) -> usize {
    if let Spot::Between = local.spot() {
        let told = local.answers().len();
        for event in passed..told {
            gate.pass(u32::from(local.worker()), number_of(event));
        }
        if local.has_call() && passed <= told {
            gate.pass(u32::from(local.worker()), number_of(told));
        }
        return told.saturating_add(1);
    }
    passed
}

/// The number of an event.
fn number_of(event: usize) -> u32 {
    u32::try_from(event).unwrap_or(u32::MAX)
}
