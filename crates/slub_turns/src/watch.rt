//! Who watches a round step by step.

ghost use Rattle.std.specs.Prelude.{◌≡◌, ℕ, ◌<◌, ◌≤◌, List, [], length, slice_index, IfOk, IfErr, MatchResult};
ghost use Rattle.slub_core.specs.Facts.{Facts};
ghost use Rattle.slub_core.specs.Local.{Local};
ghost use Rattle.slub_core.specs.Run.{System};
ghost use Rattle.slub_core.specs.Values.{values_of};
ghost use Rattle.slub_schedule.specs.Schedule.{unfinished};
ghost use Rattle.slub_turns.specs.Happenings.{Happening, Begins, Steps, Advances, Changing, Changed, Rests};
ghost use Rattle.slub_turns.specs.System.{system_of};

use crate::machine::StepMachine;
use slub_core::guarded::Guarded;
use slub_core::setup::Setup;
use slub_core::step::{Answer, Step};
use slub_core::worker_local::Local;
use slub_schedule::order::Order;
use slub_trace::reply::Reply;

/// A watcher of a round: it says whose turn comes next, and hears what comes about in the turn while it is made. What
/// it hears it can't answer; where it can't go on, it says so when it is asked for the next turn.
pub trait Watch {
    /// Why it has the round end before its time.
    type Halt;

    /// Before the first turn it is told of the workers, each after the replies that take no step. `Facts` is what stays
    /// while the round runs, here and below; then comes the watcher before, and last the watcher after.
    ghost begins_round: { Facts → Self → List Local → Self → Type 0 };

    /// It chooses the worker whose turn comes next in this machine.
    ghost chooses: { Facts → Self → System → ℕ → Self → Type 0 };

    /// It has the round end.
    ghost halts: { Facts → Self → System → Self.Halt → Self → Type 0 };

    /// Each worker is finished.
    ghost is_done: { Facts → Self → System → Self → Type 0 };

    /// It hears this.
    ghost hears: { Facts → Self → Happening → Self → Type 0 };

    /// A round begins with these workers.
    fn begins_round(&mut self, setup: &Setup, locals: &[Local])
        ensures { begins_round setup.now self.old locals.now self.new };

    /// The place, among the workers that are unfinished, of the one whose turn comes next.
    fn choose(&mut self, machine: &StepMachine, order: &Order) -> Result<usize, Self::Halt>
        requires some { 1 ≤ length order.now }
        requires order { order.now ≡ unfinished (system_of machine.now.table machine.now.values.items machine.now.locals.items) }
        ensures place { IfOk result (λ place. place < length order.now) }
        ensures chosen { IfOk result (λ place. chooses machine.now.setup self.old (system_of machine.now.table machine.now.values.items machine.now.locals.items) (slice_index order.now place) self.new) }
        ensures halted { IfErr result (λ halt. halts machine.now.setup self.old (system_of machine.now.table machine.now.values.items machine.now.locals.items) halt self.new) };

    /// Each worker of the machine is finished.
    fn end(&mut self, machine: &StepMachine) -> Result<(), Self::Halt>
        requires { unfinished (system_of machine.now.table machine.now.values.items machine.now.locals.items) ≡ [] }
        ensures { MatchResult result (λ _. is_done machine.now.setup self.old (system_of machine.now.table machine.now.values.items machine.now.locals.items) self.new) (λ halt. halts machine.now.setup self.old (system_of machine.now.table machine.now.values.items machine.now.locals.items) halt self.new) };

    /// A worker has begun its call, or goes on with it, and makes its step next.
    fn begins(&mut self, setup: &Setup, local: &Local)
        ensures { hears setup.now self.old (Begins local.now) self.new };

    /// It has made the step that its spot calls for, and this came back.
    fn stepped(
        &mut self,
        setup: &Setup,
        values: &[Guarded],
        local: &Local,
        step: Step,
        answer: Answer,
    )
        ensures { hears setup.now self.old (Steps (values_of values.now) local.now step answer) self.new };

    /// The answer has led it here, and its call has this reply by it, before it is noted.
    fn advanced(&mut self, setup: &Setup, local: &Local, reply: Option<Reply>)
        ensures { hears setup.now self.old (Advances local.now reply) self.new };

    /// Something is done at once next, under a lock that it has.
    fn changing(&mut self, setup: &Setup, values: &[Guarded], local: &Local)
        ensures { hears setup.now self.old (Changing (values_of values.now) local.now) self.new };

    /// That is done, and its call has this reply by it, before it is noted.
    fn changed(&mut self, setup: &Setup, values: &[Guarded], local: &Local, reply: Option<Reply>)
        ensures { hears setup.now self.old (Changed (values_of values.now) local.now reply) self.new };

    /// Its turn is at an end, after the replies that take no step; it had `before` replies before those.
    fn rested(&mut self, setup: &Setup, values: &[Guarded], before: usize, local: &Local)
        ensures { hears setup.now self.old (Rests (values_of values.now) before local.now) self.new };
}
