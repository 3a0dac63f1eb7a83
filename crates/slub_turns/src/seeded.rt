//! A machine in a round by seed.

ghost use Rattle.std.specs.Prelude.{◌≡◌};
ghost use Rattle.slub_core.specs.Facts.{setup_of};
ghost use Rattle.slub_schedule.specs.Made.{IsDrawn};
ghost use Rattle.slub_turns.specs.Means.{the_means};
ghost use Rattle.slub_turns.specs.System.{system_of};
ghost use Rattle.slub_turns.specs.Ready.{IsReady};

use crate::machine::StepMachine;
use slub_schedule::draws::Draws;
use slub_schedule::machine;
use slub_schedule::order::Order;
use std::convert::Infallible;

/// A machine, and the generator that draws whose turn comes next.
#[derive(Debug, Drop)]
pub struct Seeded {
    pub machine: StepMachine,
    pub draws: Draws,
}

impl machine::Machine for Seeded {
    /// A number is drawn before each turn.
    type Halt = Infallible;

    ghost setup = { λ d. setup_of d.machine.setup the_means };

    ghost system = { λ d. system_of d.machine.table d.machine.values.items d.machine.locals.items };

    ghost is_ready = { λ d. IsReady d.machine.setup d.machine.table d.machine.values.items d.machine.locals.items };

    ghost chooses = { λ d worker e. IsDrawn (system_of d.machine.table d.machine.values.items d.machine.locals.items) d.draws worker e.draws };

    ghost halts = { λ _ _ _. ⊥ };

    ghost is_done = { λ d e. e ≡ d };

    ghost notes = { λ d _ e. e.draws ≡ d.draws };

    #[inline(always)]
    fn choose(&mut self, order: &Order) -> Result<usize, Infallible> {
        let number = self.draws.draw();
        Ok(order.place(number))
    }

    #[inline(always)]
    fn turn(&mut self, worker: usize) -> bool {
        self.machine.turn(worker)
    }

    fn end(&mut self) -> Result<(), Infallible> {
        Ok(())
    }
}
