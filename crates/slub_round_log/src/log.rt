//! The log of a round's turns, written as they are made.

ghost use Rattle.std.specs.Prelude.{◌≡◌, ◌≤◌, ◌<◌, ◌≢◌, None, OnOk, IfOk, IfErr, length, slice_index, MatchResult};
ghost use Rattle.slub_core.specs.Facts.{Facts};
ghost use Rattle.slub_core.specs.Values.{values_of};
ghost use Rattle.slub_schedule.specs.Schedule as schedule;
ghost use Rattle.slub_schedule.specs.Schedule.{unfinished};
ghost use Rattle.slub_round_log.specs.Log.{Begun, Halts, Hears, IsOverAll, Picks, Writes};

use crate::kept::{Fault, Halt, Kept};
use slub_core::guarded::Guarded;
use slub_core::setup::Setup;
use slub_core::spot::Spot;
use slub_core::step::{Answer, Step};
use slub_core::worker_local::Local;
use slub_edges::edges::{Failed, Sink};
use slub_edges::pieces::write_lines;
use slub_picks::walk::Ended;
use slub_schedule::order::Order;
use slub_trace::reply::Reply;
use slub_turns::machine::StepMachine;
use slub_turns::watch::Watch;

/// A log of a round's turns. The lines of a turn are written at its end.
#[derive(Drop)]
pub struct Log<'a, K: Sink> {
    pub kept: Kept<'a>,
    pub sink: K,
}

/// Whether a worker is in no call.
fn is_between(spot: Spot) -> bool
    ensures { result ≡ schedule.is_between spot }
{
    matches!(spot, Spot::Between)
}

impl<'a, K: Sink> Log<'a, K> {
    /// Writes the lines that aren't written yet.
    fn write(&mut self)
        requires { self.old.kept.fault ≡ None }
        ensures written { Writes self.old.kept self.old.kept.lines.items self.new.kept (record { taken = K.taken self.old.sink; faults = K.faults self.old.sink }) (record { taken = K.taken self.new.sink; faults = K.faults self.new.sink }) }
        ensures choice { self.new.kept.choice ≡ self.old.kept.choice }
    {
        if self.kept.is_shown {
            if let Err(Failed) = write_lines(&mut self.sink, self.kept.lines.as_slice()) {
                self.kept.fault = Some(Fault::Write);
                return;
            }
        }
        self.kept.lines.clear();
    }
}

impl<'a, K: Sink> Watch for Log<'a, K> {
    type Halt = Halt;

    ghost begins_round = { λ m w locals v. Begun w.kept locals v.kept (record { taken = K.taken w.sink; faults = K.faults w.sink }) (record { taken = K.taken v.sink; faults = K.faults v.sink }) };

    ghost chooses = { λ m w s worker v. Picks w.kept (unfinished s) worker v.kept × (v.sink ≡ w.sink) };

    ghost halts = { λ m w s halt v. Halts w.kept (unfinished s) halt v.kept × (v.sink ≡ w.sink) };

    ghost is_done = { λ m w s v. IsOverAll w.kept v.kept × (v.sink ≡ w.sink) };

    ghost hears = { λ m w h v. Hears m w.kept (record { taken = K.taken w.sink; faults = K.faults w.sink }) h v.kept (record { taken = K.taken v.sink; faults = K.faults v.sink }) };

    fn begins_round(&mut self, setup: &Setup, locals: &[Local]) {
        if self.kept.fault.is_some() {
            return;
        }
        self.kept.put_first(locals);
        if self.kept.fault.is_some() {
            return;
        }
        self.write();
    }

    fn choose(&mut self, machine: &StepMachine, order: &Order) -> Result<usize, Halt> {
        if let Some(fault) = self.kept.fault {
            return Err(Halt::Failed(fault));
        }
        match self.kept.choice.next(order) {
            Ok(place) => Ok(place),
            Err(misfit) => Err(Halt::Unfit(misfit)),
        }
    }

    fn end(&mut self, machine: &StepMachine) -> Result<(), Halt> {
        if let Some(fault) = self.kept.fault {
            return Err(Halt::Failed(fault));
        }
        match self.kept.choice.end() {
            Ok(()) => Ok(()),
            Err(misfit) => Err(Halt::Unfit(misfit)),
        }
    }

    fn begins(&mut self, setup: &Setup, local: &Local) {
        self.kept.begins(setup, local);
    }

    fn stepped(
        &mut self,
        setup: &Setup,
        values: &[Guarded],
        local: &Local,
        step: Step,
        answer: Answer,
    ) {
        self.kept.stepped(setup, values, local, step, answer);
    }

    fn advanced(&mut self, setup: &Setup, local: &Local, reply: Option<Reply>) {
        self.kept.advanced(setup, local, reply);
    }

    fn changing(&mut self, setup: &Setup, values: &[Guarded], local: &Local) {
        self.kept.changing(setup, values, local);
    }

    fn changed(&mut self, setup: &Setup, values: &[Guarded], local: &Local, reply: Option<Reply>) {
        self.kept.changed(setup, values, local, reply);
    }

    fn rested(&mut self, setup: &Setup, values: &[Guarded], before: usize, local: &Local) {
        self.kept.rested(setup, values, before, local);
        if self.kept.fault.is_some() {
            return;
        }
        let ended = Ended {
            is_event_over: is_between(local.spot()),
            is_lost_at_lock: self.kept.waits,
        };
        self.write();
        self.kept.choice.told(ended);
    }
}
