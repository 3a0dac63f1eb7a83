//! A round of several workers that is watched.

ghost use Rattle.std.specs.Prelude.{◌≡◌, ◌≤◌, ℕ, List, IfErr, IfOk, MatchResult, length};
ghost use Rattle.slub_trace.specs.declared.trace.Trace.{Trace};
ghost use Rattle.slub_lists.specs.State.{State};
ghost use Rattle.slub_lists.specs.Coherent.{IsCoherent};
ghost use Rattle.slub_core.specs.Facts.{setup_of};
ghost use Rattle.slub_core.specs.Run.{Pick};
ghost use Rattle.slub_schedule.specs.Schedule.{unfinished};
ghost use Rattle.slub_schedule.specs.Turns.{turns_of};
ghost use Rattle.slub_law_opening.specs.Opening.{IsLaidDown};
ghost use Rattle.slub_calls.specs.Laws.{MayDo};
ghost use Rattle.slub_open_close.specs.declared.beside.Beside.{Beside};
ghost use Rattle.slub_open_close.specs.Ids.{AreIds};
ghost use Rattle.slub_law_rounds.specs.Round.{IsRound};
ghost use Rattle.slub_turns.specs.Means.{the_means};
ghost use Rattle.slub_turns.specs.Ready.{IsReady};
ghost use Rattle.slub_rounds.specs.Rounds.{DoesRoundBySteps};
ghost use Rattle.slub_rounds.specs.Machine.{IsDone, system_in};
ghost use Rattle.slub_rounds.specs.Prepared.{IsPrepared};
ghost use Rattle.slub_rounds.specs.Watched.{EndsWatched, IsUnendedWatched, IsUnwatched};

use crate::ended::Ended;
use crate::ends::closed;
use crate::prepared::{Prepared, prepare};
use slub_law_rounds::cause_laws::rounds_are_lawful;
use slub_list_machine::lists::Lists;
use slub_open_close::ids::Ids;
use slub_schedule::machine::{Unended, scheduled};
use slub_schedule::order::Order;
use slub_trace::event::Round;
use slub_turns::watch::Watch;
use slub_turns::watched::Watched;
use std::alloc::Global;

/// Why a round that is watched wasn't done.
#[derive(Debug, Drop)]
pub enum Unwatched<H> {
    /// There was no memory for it: the machine is as it was.
    NoMemory(Lists),
    /// All its turns are made, and an event has no reply.
    TurnsSpent,
    /// The watcher had it end.
    Halted(H),
}

/// Does a round of however many workers: the turns are made in the order that the watcher says, which hears what comes
/// about in each of them.
///
/// All memory is taken before the first turn, but the bytes of new checked slabs. The cost is in proportion to the
/// frames, the object numbers and the objects of the machine, and to the turns.
pub fn watched<W: Watch>(
    alloc: Global,
    lists: Lists,
    ids: &Ids,
    round: &Round,
    watch: W,
) -> (Result<Ended, Unwatched<W::Halt>>, W)
    requires coherent { IsCoherent lists }
    requires laid_down { IsLaidDown lists }
    requires objects { length lists.board ≤ 1048577 }
    requires may_do { (trace : Trace) × MayDo lists trace round.now }
    requires ids { AreIds lists ids.now }
    ensures does { IfOk result.0 (λ done. DoesRoundBySteps (λ m first picks last. EndsWatched W.begins_round W.chooses W.hears W.is_done watch result.1 m first picks last) lists ids.now round.now done.result done.lists done.ids) }
    ensures lawful { IfOk result.0 (λ done. IsRound lists round.now done.result done.lists) }
    ensures coherent { IfOk result.0 (λ done. IsCoherent done.lists) }
    ensures laid_down { IfOk result.0 (λ done. IsLaidDown done.lists) }
    ensures ids { IfOk result.0 (λ done. AreIds done.lists done.ids) }
    ensures unwatched { IfErr result.0 (IsUnwatched W.begins_round W.chooses W.hears W.halts lists ids.now round.now watch result.1) }
{
    rounds_are_lawful();
    match prepare(alloc, lists, ids, round) {
        Ok(prepared) => in_words(prepared, round, watch),
        Err(lists) => (Err(Unwatched::NoMemory(lists)), watch),
    }
}

/// Does the round on the machine in words, and closes it.
fn in_words<W: Watch>(
    prepared: Prepared,
    round: &Round,
    watch: W,
) -> (Result<Ended, Unwatched<W::Halt>>, W)
    requires { (s : State) × (ids : List ℕ) × (b : Beside) × (trace : Trace) × IsPrepared s ids b trace round.now prepared }
    ensures { (s : State) (ids : List ℕ) (b : Beside) (trace : Trace) → IsPrepared s ids b trace round.now prepared → MatchResult result.0 (λ done. IsDone (λ m first picks last. EndsWatched W.begins_round W.chooses W.hears W.is_done watch result.1 m first picks last) s ids round.now done) (IsUnwatched W.begins_round W.chooses W.hears W.halts s ids round.now watch result.1) }
{
    let Prepared {
        machine,
        rest,
        order,
        turns,
        answers,
    } = prepared;
    let mut watched = Watched { machine, watch };
    let ran = run_turns(&mut watched, order, turns);
    let Watched { machine, watch } = watched;
    match ran {
        Ok(()) => (Ok(closed(machine, rest, round, answers)), watch),
        Err(Unended::TurnsSpent) => (Err(Unwatched::TurnsSpent), watch),
        Err(Unended::Halted(why)) => (Err(Unwatched::Halted(why)), watch),
    }
}

/// The watcher is told of the workers, and they make their turns in the order that it says. `order` has those that are
/// unfinished.
fn run_turns<W: Watch>(
    watched: &mut Watched<W>,
    order: Order,
    turns: u64,
) -> Result<(), Unended<W::Halt>>
    requires ready { IsReady watched.old.machine.setup watched.old.machine.table watched.old.machine.values.items watched.old.machine.locals.items }
    requires order { order ≡ unfinished (system_in watched.old.machine) }
    requires turns { turns ≡ turns_of (system_in watched.old.machine) }
    ensures setup { setup_of watched.new.machine.setup the_means ≡ setup_of watched.old.machine.setup the_means }
    ensures ready { IsReady watched.new.machine.setup watched.new.machine.table watched.new.machine.values.items watched.new.machine.locals.items }
    ensures came { let m = setup_of watched.old.machine.setup the_means in
        let first = system_in watched.old.machine in
        let last = system_in watched.new.machine in
        MatchResult result (λ _. (picks : List Pick) × EndsWatched W.begins_round W.chooses W.hears W.is_done watched.old.watch watched.new.watch m first picks last) (λ why. (picks : List Pick) × IsUnendedWatched W.begins_round W.chooses W.hears W.halts watched.old.watch why watched.new.watch m first picks last) }
{
    let machine = &watched.machine;
    watched
        .watch
        .begins_round(&machine.setup, machine.locals.as_slice());
    scheduled(watched, order, turns)
}
