//! The begin of a round on words, once the lists are opened.

ghost use Rattle.std.specs.Prelude.{◌≡◌};
ghost use Rattle.slub_trace.specs.declared.event.Round.{Round as Events};
ghost use Rattle.slub_lists.specs.State.{State};
ghost use Rattle.slub_calls.specs.Calls.{workers_of};
ghost use Rattle.slub_open_close.specs.declared.beside.Beside.{Beside};
ghost use Rattle.slub_open_close.specs.Opened.{IsOpened};
ghost use Rattle.slub_rounds.specs.Machine.{IsBegun};

use slub_core::worker_local::Local;
use slub_open_close::opened::{Opened, Rest};
use slub_turns::machine::StepMachine;

/// The machine in words with its workers, each of which has the replies that take no step.
pub fn begun(opened: Opened, locals: Vec<Local>) -> (StepMachine, Rest)
    ensures begun { (s : State) (b : Beside) (round : Events) → IsOpened s b opened → locals.items ≡ workers_of s.table round → IsBegun s b round result.0 result.1 }
    ensures values { result.0.values ≡ opened.values }
    ensures rest { result.1 ≡ opened.rest }
{
    let Opened {
        setup,
        table,
        values,
        rest,
    } = opened;
    let mut machine = StepMachine {
        setup,
        table,
        values,
        locals,
    };
    machine.open();
    (machine, rest)
}
