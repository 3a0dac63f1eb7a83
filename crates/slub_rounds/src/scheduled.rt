//! A round of several workers by a seed.

ghost use Rattle.std.specs.Prelude.{◌≡◌, ◌≤◌, ℕ, List, IfErr, IfOk, MatchResult, OnErr, OnOk, length};
ghost use Rattle.slub_trace.specs.declared.trace.Trace.{Trace};
ghost use Rattle.slub_lists.specs.State.{State};
ghost use Rattle.slub_lists.specs.Coherent.{IsCoherent};
ghost use Rattle.slub_core.specs.Run.{Pick};
ghost use Rattle.slub_core.specs.Facts.{setup_of};
ghost use Rattle.slub_schedule.specs.Rounds.{EndsRound, IsSpent};
ghost use Rattle.slub_schedule.specs.Schedule.{unfinished};
ghost use Rattle.slub_schedule.specs.Turns.{turns_of};
ghost use Rattle.slub_law_opening.specs.Opening.{IsLaidDown};
ghost use Rattle.slub_calls.specs.Laws.{MayDo};
ghost use Rattle.slub_open_close.specs.declared.beside.Beside.{Beside};
ghost use Rattle.slub_open_close.specs.Ids.{AreIds};
ghost use Rattle.slub_law_rounds.specs.Round.{IsRound};
ghost use Rattle.slub_turns.specs.Means.{the_means};
ghost use Rattle.slub_turns.specs.Ready.{IsReady};
ghost use Rattle.slub_rounds.specs.Rounds.{DoesRoundBySeed};
ghost use Rattle.slub_rounds.specs.Machine.{IsDoneBySeed, system_in};
ghost use Rattle.slub_rounds.specs.Prepared.{IsPrepared};
ghost use Rattle.slub_rounds.specs.Scheduled.{IsStopped};

use crate::ended::Ended;
use crate::ends::closed;
use crate::laws::rounds_by_seed_are_lawful;
use crate::prepared::{Prepared, prepare};
use slub_list_machine::lists::Lists;
use slub_open_close::ids::Ids;
use slub_schedule::draws::Draws;
use slub_schedule::machine as rounds;
use slub_schedule::machine::Unended;
use slub_schedule::order::Order;
use slub_trace::event::Round;
use slub_turns::seeded::Seeded;
use std::alloc::Global;

/// Why a round wasn't done.
#[derive(Debug, Drop)]
pub enum StepsStopped {
    /// There was no memory for it: the machine is as it was.
    NoMemory(Lists),
    /// All its turns are made, and an event has no reply.
    TurnsSpent,
}

/// Does a round of several workers: the turns are made in the order that the seed draws.
///
/// All memory is taken before the first turn, but the bytes of new checked slabs. The cost is in proportion to the
/// frames, the object numbers and the objects of the machine, and to the turns.
pub fn scheduled(
    alloc: Global,
    lists: Lists,
    ids: &Ids,
    round: &Round,
    seed: u64,
) -> Result<Ended, StepsStopped>
    requires coherent { IsCoherent lists }
    requires laid_down { IsLaidDown lists }
    requires objects { length lists.board ≤ 1048577 }
    requires may_do { (trace : Trace) × MayDo lists trace round.now }
    requires ids { AreIds lists ids.now }
    ensures does { IfOk result (λ done. DoesRoundBySeed lists ids.now seed round.now done.result done.lists done.ids) }
    ensures lawful { IfOk result (λ done. IsRound lists round.now done.result done.lists) }
    ensures coherent { IfOk result (λ done. IsCoherent done.lists) }
    ensures laid_down { IfOk result (λ done. IsLaidDown done.lists) }
    ensures ids { IfOk result (λ done. AreIds done.lists done.ids) }
    ensures stopped { IfErr result (IsStopped lists ids.now seed round.now) }
{
    rounds_by_seed_are_lawful();
    match prepare(alloc, lists, ids, round) {
        Ok(prepared) => in_words(prepared, round, seed),
        Err(lists) => Err(StepsStopped::NoMemory(lists)),
    }
}

/// Does the round on the machine in words, and closes it.
fn in_words(prepared: Prepared, round: &Round, seed: u64) -> Result<Ended, StepsStopped>
    requires { (s : State) × (ids : List ℕ) × (b : Beside) × (trace : Trace) × IsPrepared s ids b trace round.now prepared }
    ensures { (s : State) (ids : List ℕ) (b : Beside) (trace : Trace) → IsPrepared s ids b trace round.now prepared → MatchResult result (λ done. IsDoneBySeed s ids seed round.now done) (IsStopped s ids seed round.now) }
{
    let Prepared {
        machine,
        rest,
        order,
        turns,
        answers,
    } = prepared;
    let draws = Draws::open(seed);
    let mut seeded = Seeded { machine, draws };
    match run_turns(&mut seeded, order, turns) {
        Ok(()) => Ok(closed(seeded.machine, rest, round, answers)),
        Err(TurnsSpent) => Err(StepsStopped::TurnsSpent),
    }
}

/// All turns of a round are made, and a worker isn't finished.
struct TurnsSpent;

/// The workers make their turns, in the order that the seed draws. `order` has those that are unfinished.
fn run_turns(seeded: &mut Seeded, order: Order, turns: u64) -> Result<(), TurnsSpent>
    requires ready { IsReady seeded.old.machine.setup seeded.old.machine.table seeded.old.machine.values.items seeded.old.machine.locals.items }
    requires order { order ≡ unfinished (system_in seeded.old.machine) }
    requires turns { turns ≡ turns_of (system_in seeded.old.machine) }
    ensures setup { setup_of seeded.new.machine.setup the_means ≡ setup_of seeded.old.machine.setup the_means }
    ensures ready { IsReady seeded.new.machine.setup seeded.new.machine.table seeded.new.machine.values.items seeded.new.machine.locals.items }
    ensures ends { OnOk result ((picks : List Pick) × EndsRound (setup_of seeded.old.machine.setup the_means) seeded.old.draws (system_in seeded.old.machine) picks (system_in seeded.new.machine)) }
    ensures spent { OnErr result ((picks : List Pick) × IsSpent (setup_of seeded.old.machine.setup the_means) seeded.old.draws (system_in seeded.old.machine) picks (system_in seeded.new.machine)) }
{
    match rounds::scheduled(seeded, order, turns) {
        Ok(()) => Ok(()),
        Err(Unended::TurnsSpent) => Err(TurnsSpent),
        Err(Unended::Halted(never)) => match never {},
    }
}
