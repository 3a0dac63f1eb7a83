//! A round by steps in the order of the text.

ghost use Rattle.std.specs.Prelude.{◌≡◌, ◌≤◌, ◌<◌, ◌^◌, ℕ, List, All, IfErr, IfOk, MatchResult, OnErr, OnOk, length, replicate, slice_index_or};
ghost use Rattle.slub_trace.specs.declared.event.Event.{Event as OneEvent};
ghost use Rattle.slub_trace.specs.declared.trace.Trace.{Trace};
ghost use Rattle.slub_lists.specs.State.{State};
ghost use Rattle.slub_lists.specs.Coherent.{IsCoherent};
ghost use Rattle.slub_core.specs.Run.{Pick, idle};
ghost use Rattle.slub_core.specs.Facts.{setup_of};
ghost use Rattle.slub_schedule.specs.Turns.{turns_for, turns_of};
ghost use Rattle.slub_law_opening.specs.Opening.{IsLaidDown};
ghost use Rattle.slub_calls.specs.Laws.{MayDo};
ghost use Rattle.slub_open_close.specs.declared.beside.Beside.{Beside};
ghost use Rattle.slub_open_close.specs.Ids.{AreIds};
ghost use Rattle.slub_law_rounds.specs.Round.{IsRound};
ghost use Rattle.slub_turns.specs.Means.{the_means};
ghost use Rattle.slub_turns.specs.Ready.{IsReady};
ghost use Rattle.slub_rounds.specs.Doing.{AwaitsEvents, ComesThrough, StaysUnder, is_through};
ghost use Rattle.slub_rounds.specs.InOrder.{EndsInOrder, IsSpentInOrder};
ghost use Rattle.slub_rounds.specs.Rounds.{DoesRoundInOrder};
ghost use Rattle.slub_rounds.specs.Room.{weight_of};
ghost use Rattle.slub_rounds.specs.Machine.{IsDoneInOrder, IsSet, system_in};
ghost use Rattle.slub_rounds.specs.Scheduled.{IsStoppedInOrder};

use crate::answers::Answers;
use crate::begins::begun;
use crate::ended::Ended;
use crate::ends::closed;
use crate::laws::rounds_in_order_are_lawful;
use crate::room::{Room, take_room};
use crate::scheduled::StepsStopped;
use slub_common::no_memory::NoMemory;
use slub_core::spot::Spot;
use slub_core::worker_local::Local;
use slub_list_machine::lists::Lists;
use slub_open_close::ids::Ids;
use slub_open_close::opened::Opened;
use slub_open_close::opening::open;
use slub_trace::event::{Event, Round};
use slub_turns::machine::StepMachine;
use std::alloc::Global;

/// All turns of a round are made, and an event isn't done.
struct TurnsSpent;

/// Does a round in the order of the text, of however many workers: each event is done to its end before the next one
/// begins.
///
/// All memory is taken before the first turn, but the bytes of new checked slabs. The cost is in proportion to the
/// frames, the object numbers and the objects of the machine, to the events and to the turns.
pub fn in_order(
    alloc: Global,
    lists: Lists,
    ids: &Ids,
    round: &Round,
) -> Result<Ended, StepsStopped>
    requires coherent { IsCoherent lists }
    requires laid_down { IsLaidDown lists }
    requires objects { length lists.board ≤ 1048577 }
    requires may_do { (trace : Trace) × MayDo lists trace round.now }
    requires ids { AreIds lists ids.now }
    ensures does { IfOk result (λ done. DoesRoundInOrder lists ids.now round.now done.result done.lists done.ids) }
    ensures lawful { IfOk result (λ done. IsRound lists round.now done.result done.lists) }
    ensures coherent { IfOk result (λ done. IsCoherent done.lists) }
    ensures laid_down { IfOk result (λ done. IsLaidDown done.lists) }
    ensures ids { IfOk result (λ done. AreIds done.lists done.ids) }
    ensures stopped { IfErr result (IsStoppedInOrder lists ids.now round.now) }
{
    rounds_in_order_are_lawful();
    let room = match take_room(alloc, &lists, ids, round) {
        Ok(room) => room,
        Err(NoMemory) => return Err(StepsStopped::NoMemory(lists)),
    };
    let Room {
        beside,
        workers,
        order: _,
        passed,
        turns,
        answers,
    } = room;
    match open(alloc, lists, beside) {
        Ok(opened) => in_words(opened, workers, passed, turns, answers, round),
        Err(unopened) => Err(StepsStopped::NoMemory(unopened.lists)),
    }
}

/// Does the round on the machine in words, and closes it.
fn in_words(
    opened: Opened,
    locals: Vec<Local>,
    passed: Vec<usize>,
    turns: u64,
    answers: Answers,
    round: &Round,
) -> Result<Ended, StepsStopped>
    requires set { (s : State) × (ids : List ℕ) × (b : Beside) × (trace : Trace) × IsSet s ids b trace round.now opened locals.items answers }
    requires passed { passed.items ≡ replicate round.now.workers 0 }
    requires turns { turns ≡ turns_for (weight_of round.now.events) round.now.workers }
    ensures { (s : State) (ids : List ℕ) (b : Beside) (trace : Trace) → IsSet s ids b trace round.now opened locals.items answers → MatchResult result (λ done. IsDoneInOrder s ids round.now done) (IsStoppedInOrder s ids round.now) }
{
    let (mut machine, rest) = begun(opened, locals);
    let events = round.events.as_slice();
    match run_events(&mut machine, events, passed, turns) {
        Ok(()) => Ok(closed(machine, rest, round, answers)),
        Err(TurnsSpent) => Err(StepsStopped::TurnsSpent),
    }
}

/// Does the events in their order. `passed` has zeros, one for each worker.
fn run_events(
    machine: &mut StepMachine,
    events: &[Event],
    mut passed: Vec<usize>,
    turns: u64,
) -> Result<(), TurnsSpent>
    requires ready { IsReady machine.old.setup machine.old.table machine.old.values.items machine.old.locals.items }
    requires few { length events.now ≤ 2 ^ 32 }
    requires workers { All (λ (e : OneEvent). e.worker < length machine.old.locals.items) events.now }
    requires awaits { AwaitsEvents events.now machine.old.locals.items }
    requires passed { passed.items ≡ replicate (length machine.old.locals.items) 0 }
    requires turns { turns ≡ turns_of (system_in machine.old) }
    ensures setup { setup_of machine.new.setup the_means ≡ setup_of machine.old.setup the_means }
    ensures ready { IsReady machine.new.setup machine.new.table machine.new.values.items machine.new.locals.items }
    ensures ends { OnOk result ((picks : List Pick) × EndsInOrder (setup_of machine.old.setup the_means) events.now (system_in machine.old) picks (system_in machine.new)) }
    ensures spent { OnErr result ((picks : List Pick) × IsSpentInOrder (setup_of machine.old.setup the_means) events.now (system_in machine.old) picks (system_in machine.new)) }
{
    do_events(machine, events, passed.as_mut_slice(), turns)
}

/// Does the events in their order. `passed`: by worker, how many of its events are done.
fn do_events(
    machine: &mut StepMachine,
    events: &[Event],
    passed: &mut [usize],
    turns: u64,
) -> Result<(), TurnsSpent>
    requires ready { IsReady machine.old.setup machine.old.table machine.old.values.items machine.old.locals.items }
    requires few { length events.now ≤ 2 ^ 32 }
    requires workers { All (λ (e : OneEvent). e.worker < length machine.old.locals.items) events.now }
    requires awaits { AwaitsEvents events.now machine.old.locals.items }
    requires passed { passed.old ≡ replicate (length machine.old.locals.items) 0 }
    requires turns { turns ≡ turns_of (system_in machine.old) }
    ensures setup { setup_of machine.new.setup the_means ≡ setup_of machine.old.setup the_means }
    ensures ready { IsReady machine.new.setup machine.new.table machine.new.values.items machine.new.locals.items }
    ensures ends { OnOk result ((picks : List Pick) × EndsInOrder (setup_of machine.old.setup the_means) events.now (system_in machine.old) picks (system_in machine.new)) }
    ensures spent { OnErr result ((picks : List Pick) × IsSpentInOrder (setup_of machine.old.setup the_means) events.now (system_in machine.old) picks (system_in machine.new)) }
{
    let mut made = 0;
    for event in events {
        let worker = event.worker as usize;
        let before = passed[worker];
        made = match do_event(machine, worker, before, made, turns) {
            Ok(after) => after,
            Err(TurnsSpent) => return Err(TurnsSpent),
        };
        passed[worker] = before + 1;
    }
    Ok(())
}

/// The worker, of whose events `passed` are done, makes its turns until its next event is done to its end: it has the
/// reply, and is in no call. Gives how many turns of the round are made then, of which `made` were before.
fn do_event(
    machine: &mut StepMachine,
    worker: usize,
    passed: usize,
    made: u64,
    turns: u64,
) -> Result<u64, TurnsSpent>
    requires ready { IsReady machine.old.setup machine.old.table machine.old.values.items machine.old.locals.items }
    requires worker { worker < length machine.old.locals.items }
    requires made { made ≤ turns }
    ensures setup { setup_of machine.new.setup the_means ≡ setup_of machine.old.setup the_means }
    ensures ready { IsReady machine.new.setup machine.new.table machine.new.values.items machine.new.locals.items }
    ensures through { IfOk result (λ now. ComesThrough (setup_of machine.old.setup the_means) worker passed (system_in machine.old) (system_in machine.new) made now turns) }
    ensures under { OnErr result (StaysUnder (setup_of machine.old.setup the_means) worker passed (system_in machine.old) (system_in machine.new) made turns) }
{
    for count in made..turns {
        if has_come(&machine.locals, worker, passed) {
            return Ok(count);
        }
        machine.turn(worker);
    }
    if has_come(&machine.locals, worker, passed) {
        Ok(turns)
    } else {
        Err(TurnsSpent)
    }
}

/// Whether the worker of this number is through.
fn has_come(locals: &[Local], worker: usize, passed: usize) -> bool
    requires { worker < length locals.now }
    ensures { result ≡ is_through passed (slice_index_or locals.now worker idle) }
{
    is_through(&locals[worker], passed)
}

/// Whether the worker has more replies than these, and is in no call.
fn is_through(local: &Local, passed: usize) -> bool
    ensures { result ≡ is_through passed local.now }
{
    match local.spot() {
        Spot::Between => passed < replies(local),
        _ => false,
    }
}

/// How many of its calls have a reply.
fn replies(local: &Local) -> usize
    ensures { result ≡ length local.now.done }
{
    local.answers().len()
}
