//! A round by schedule, on any machine whose workers make turns, by whatever says whose turn comes next.

ghost use Rattle.std.specs.Prelude.{◌≡◌, ◌<◌, ◌≤◌, ℕ, Bool, false, [], length, slice_index, slice_index_or, IfErr, IfOk, MatchResult};
ghost use Rattle.slub_core.specs.Setup.{Setup};
ghost use Rattle.slub_core.specs.Run.{System, Pick, idle, turn};
ghost use Rattle.slub_schedule.specs.Schedule.{is_finished, unfinished};
ghost use Rattle.slub_schedule.specs.Turns.{turns_of};
ghost use Rattle.slub_schedule.specs.Made.{EndsBy, IsNoEnd, IsUnended};

use crate::order::Order;

/// A machine in a round, and who says whose turn comes next.
pub trait Machine {
    /// Why no turn is made though a worker is unfinished, or why the end is none.
    type Halt;

    /// What stays while the round runs.
    ghost setup: { Self → Setup };

    /// Its words, the values of its locks, and its workers.
    ghost system: { Self → System };

    /// What a turn asks of it, and leaves so.
    ghost is_ready: { Self → Type 0 };

    /// This worker's turn is said to come next, and so it stands then.
    ghost chooses: { Self → ℕ → Self → Type 0 };

    /// No turn is said, or one too many, for this reason, and so it stands then.
    ghost halts: { Self → Self.Halt → Self → Type 0 };

    /// Each worker is finished, nothing is left to be said, and so it stands then.
    ghost is_done: { Self → Self → Type 0 };

    /// What a turn leaves beside the machine.
    ghost notes: { Self → Pick → Self → Type 0 };

    /// Says whose turn comes next: the place of a worker among those that are unfinished.
    fn choose(&mut self, order: &Order) -> Result<usize, Self::Halt>
        requires ready { is_ready self.old }
        requires some { 1 ≤ length order.now }
        requires order { order.now ≡ unfinished (system self.old) }
        ensures ready { is_ready self.new }
        ensures setup { setup self.new ≡ setup self.old }
        ensures system { system self.new ≡ system self.old }
        ensures place { IfOk result (λ place. place < length order.now) }
        ensures chooses { IfOk result (λ place. chooses self.old (slice_index order.now place) self.new) }
        ensures halts { IfErr result (λ why. halts self.old why self.new) };

    /// The turn of a worker, which says whether the worker is finished by it. Memory may be refused, and a call that
    /// begins with it is no try.
    fn turn(&mut self, worker: usize) -> bool
        requires ready { is_ready self.old }
        requires worker { worker < length (system self.old).locals }
        ensures ready { is_ready self.new }
        ensures setup { setup self.new ≡ setup self.old }
        ensures turned { (refused : Bool) × let pick : Pick = record { worker = worker; refused = refused; tries = false } in (system self.new ≡ turn (setup self.old) (system self.old) pick) × notes self.old pick self.new }
        ensures finished { result ≡ is_finished (slice_index_or (system self.new).locals worker idle) };

    /// Each worker is finished: whether nothing is left to be said.
    fn end(&mut self) -> Result<(), Self::Halt>
        requires ready { is_ready self.old }
        requires finished { unfinished (system self.old) ≡ [] }
        ensures ready { is_ready self.new }
        ensures setup { setup self.new ≡ setup self.old }
        ensures system { system self.new ≡ system self.old }
        ensures ends { MatchResult result (λ _. is_done self.old self.new) (λ why. halts self.old why self.new) };
}

/// Why a round doesn't end.
#[derive(Debug, Drop)]
pub enum Unended<H> {
    /// All its turns are made, and a worker isn't finished.
    TurnsSpent,
    /// No turn is said to come next though a worker is unfinished, or the end is none.
    Halted(H),
}

/// Runs a round by the turns that the machine says, until each worker is finished, no turn is said, or the turns of the
/// round are spent. `order` has the workers that are unfinished.
pub fn scheduled<M: Machine>(
    machine: &mut M,
    mut order: Order,
    turns: u64,
) -> Result<(), Unended<M::Halt>>
    requires ready { M.is_ready machine.old }
    requires order { order ≡ unfinished (M.system machine.old) }
    requires turns { turns ≡ turns_of (M.system machine.old) }
    ensures setup { M.setup machine.new ≡ M.setup machine.old }
    ensures ready { M.is_ready machine.new }
    ensures ends { MatchResult result (λ _. EndsBy M.setup M.system M.chooses M.notes M.is_done machine.old machine.new) (λ why. IsUnended M.setup M.system M.chooses M.notes M.halts machine.old why machine.new) }
{
    for _ in 0..turns {
        if order.is_empty() {
            return ended(machine);
        }
        let place = match machine.choose(&order) {
            Ok(place) => place,
            Err(why) => return Err(Unended::Halted(why)),
        };
        let worker = order.worker(place);
        if machine.turn(worker) {
            order.remove(place);
        }
    }
    if order.is_empty() {
        ended(machine)
    } else {
        Err(Unended::TurnsSpent)
    }
}

/// Each worker is finished: whether this is an end.
fn ended<M: Machine>(machine: &mut M) -> Result<(), Unended<M::Halt>>
    requires ready { M.is_ready machine.old }
    requires finished { unfinished (M.system machine.old) ≡ [] }
    ensures setup { M.setup machine.new ≡ M.setup machine.old }
    ensures ready { M.is_ready machine.new }
    ensures system { M.system machine.new ≡ M.system machine.old }
    ensures ends { MatchResult result (λ _. M.is_done machine.old machine.new) (λ why. IsNoEnd M.halts machine.old why machine.new) }
{
    match machine.end() {
        Ok(()) => Ok(()),
        Err(why) => Err(Unended::Halted(why)),
    }
}
