//! The machine of a round: its words, the values of its locks, and its workers.

ghost use Rattle.std.specs.Prelude.{◌≡◌, ◌<◌, Bool, false, length, slice_index_or};
ghost use Rattle.slub_core.specs.Run.{idle, turn};
ghost use Rattle.slub_core.specs.Opening.{opened};
ghost use Rattle.slub_core.specs.Facts.{setup_of};
ghost use Rattle.slub_schedule.specs.Schedule.{is_finished};
ghost use Rattle.slub_turns.specs.Means.{the_means};
ghost use Rattle.slub_turns.specs.System.{system_of};
ghost use Rattle.slub_turns.specs.Ready.{IsReady};

use crate::begin::{is_finished, rest_all};
use crate::laws::{picks_fit, turns_keep_ready};
use crate::turn::turn_of;
use slub_core::guarded::Guarded;
use slub_core::setup::Setup;
use slub_core::worker_local::Local;
use slub_schedule::table::Table;

/// A machine in a round.
#[derive(Debug, Drop)]
pub struct StepMachine {
    pub setup: Setup,
    pub table: Table,
    /// By the number of the lock.
    pub values: Vec<Guarded>,
    /// In rising number.
    pub locals: Vec<Local>,
}

impl StepMachine {
    /// Each worker is given the replies that take no step.
    pub fn open(&mut self)
        ensures system { system_of self.new.table self.new.values.items self.new.locals.items ≡ opened (setup_of self.old.setup the_means) (system_of self.old.table self.old.values.items self.old.locals.items) }
        ensures setup { self.new.setup ≡ self.old.setup }
        ensures table { self.new.table ≡ self.old.table }
        ensures values { self.new.values ≡ self.old.values }
    {
        rest_all(&self.setup, self.locals.as_mut_slice());
    }

    /// The turn of a worker, which says whether the worker is finished by it. Memory may be refused, and a call that
    /// begins with it is no try.
    #[inline(always)]
    pub fn turn(&mut self, worker: usize) -> bool
        requires ready { IsReady self.old.setup self.old.table self.old.values.items self.old.locals.items }
        requires worker { worker < length self.old.locals.items }
        ensures ready { IsReady self.new.setup self.new.table self.new.values.items self.new.locals.items }
        ensures setup { self.new.setup ≡ self.old.setup }
        ensures turned { (refused : Bool) × (system_of self.new.table self.new.values.items self.new.locals.items ≡ turn (setup_of self.old.setup the_means) (system_of self.old.table self.old.values.items self.old.locals.items) (record { worker = worker; refused = refused; tries = false })) }
        ensures finished { result ≡ is_finished (slice_index_or self.new.locals.items worker idle) }
    {
        picks_fit();
        turns_keep_ready();
        let local = &mut self.locals[worker];
        let _refused = turn_of(
            &self.setup,
            &mut self.table,
            self.values.as_mut_slice(),
            local,
            false,
        );
        is_finished(local)
    }
}
