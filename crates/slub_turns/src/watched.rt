//! A machine in a round with its watcher, who says whose turn comes next and is told what comes about in it.

ghost use Rattle.std.specs.Prelude.{◌≡◌};
ghost use Rattle.std.specs.List.{FoldsTo};
ghost use Rattle.slub_core.specs.Opening.{opened};
ghost use Rattle.slub_core.specs.Facts.{setup_of};
ghost use Rattle.slub_turns.specs.Happenings.{happenings_of};
ghost use Rattle.slub_turns.specs.Means.{the_means};
ghost use Rattle.slub_turns.specs.System.{system_of};
ghost use Rattle.slub_turns.specs.Ready.{IsReady};

use crate::begin::is_finished;
use crate::laws::{picks_fit, turns_keep_ready};
use crate::machine::StepMachine;
use crate::watch::Watch;
use crate::watched_turn::watched_turn;
use slub_schedule::machine;
use slub_schedule::order::Order;

/// A machine in a round, and who watches it.
#[derive(Debug, Drop)]
pub struct Watched<W> {
    pub machine: StepMachine,
    pub watch: W,
}

impl<W: Watch> Watched<W> {
    /// Each worker is given the replies that take no step, and then the watcher is told of the workers.
    pub fn open(&mut self)
        ensures system { system_of self.new.machine.table self.new.machine.values.items self.new.machine.locals.items ≡ opened (setup_of self.old.machine.setup the_means) (system_of self.old.machine.table self.old.machine.values.items self.old.machine.locals.items) }
        ensures setup { self.new.machine.setup ≡ self.old.machine.setup }
        ensures table { self.new.machine.table ≡ self.old.machine.table }
        ensures values { self.new.machine.values ≡ self.old.machine.values }
        ensures told { W.begins_round self.old.machine.setup self.old.watch self.new.machine.locals.items self.new.watch }
    {
        self.machine.open();
        self.watch
            .begins_round(&self.machine.setup, self.machine.locals.as_slice());
    }
}

impl<W: Watch> machine::Machine for Watched<W> {
    type Halt = W::Halt;

    ghost setup = { λ w. setup_of w.machine.setup the_means };

    ghost system = { λ w. system_of w.machine.table w.machine.values.items w.machine.locals.items };

    ghost is_ready = { λ w. IsReady w.machine.setup w.machine.table w.machine.values.items w.machine.locals.items };

    ghost chooses = { λ a worker b. (b.machine ≡ a.machine) × W.chooses a.machine.setup a.watch (system_of a.machine.table a.machine.values.items a.machine.locals.items) worker b.watch };

    ghost halts = { λ a halt b. (b.machine ≡ a.machine) × W.halts a.machine.setup a.watch (system_of a.machine.table a.machine.values.items a.machine.locals.items) halt b.watch };

    ghost is_done = { λ a b. (b.machine ≡ a.machine) × W.is_done a.machine.setup a.watch (system_of a.machine.table a.machine.values.items a.machine.locals.items) b.watch };

    ghost notes = { λ a pick b. (b.machine.setup ≡ a.machine.setup) × FoldsTo (W.hears a.machine.setup) a.watch (happenings_of (setup_of a.machine.setup the_means) pick.refused (system_of a.machine.table a.machine.values.items a.machine.locals.items) pick.worker) b.watch };

    fn choose(&mut self, order: &Order) -> Result<usize, W::Halt> {
        self.watch.choose(&self.machine, order)
    }

    fn turn(&mut self, worker: usize) -> bool {
        picks_fit();
        turns_keep_ready();
        let local = &mut self.machine.locals[worker];
        let _refused = watched_turn(
            &self.machine.setup,
            &mut self.machine.table,
            self.machine.values.as_mut_slice(),
            local,
            &mut self.watch,
        );
        is_finished(local)
    }

    fn end(&mut self) -> Result<(), W::Halt> {
        self.watch.end(&self.machine)
    }
}
