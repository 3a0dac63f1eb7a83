//! The end of a round on words: the machine is closed into lists.

ghost use Rattle.std.specs.Prelude.{ℕ, List};
ghost use Rattle.slub_trace.specs.declared.trace.Trace.{Trace};
ghost use Rattle.slub_lists.specs.State.{State};
ghost use Rattle.slub_open_close.specs.declared.beside.Beside.{Beside};
ghost use Rattle.slub_rounds.specs.Machine.{HasClosed, HasEnded, beside_in, system_in};

use crate::answers::{Answers, result_of};
use crate::ended::Ended;
use slub_open_close::closing::close;
use slub_open_close::ids::Ids;
use slub_open_close::opened::Rest;
use slub_trace::event::Round;
use slub_turns::machine::StepMachine;

/// Closes the machine, whose workers have all their replies, and tells what came of the round.
pub fn closed(machine: StepMachine, rest: Rest, round: &Round, answers: Answers) -> Ended
    requires { (s : State) × (ids : List ℕ) × (b : Beside) × (trace : Trace) × HasEnded s ids b trace round.now machine rest answers }
    ensures { (s : State) (ids : List ℕ) (b : Beside) (trace : Trace) → HasEnded s ids b trace round.now machine rest answers → HasClosed s (beside_in b) round.now (system_in machine) result }
{
    let StepMachine {
        setup,
        table,
        values,
        locals,
    } = machine;
    let (mut lists, beside) = close(&setup, table, values, rest, &locals);
    let result = result_of(&lists, round, &locals, answers);
    lists.end_round();
    Ended {
        lists,
        ids: Ids {
            by_word: beside.tids,
        },
        result,
    }
}
