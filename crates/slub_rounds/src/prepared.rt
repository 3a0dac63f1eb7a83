//! A round on words before its first turn.

ghost use Rattle.std.specs.Prelude.{◌≡◌, ◌≤◌, ℕ, List, IfErr, IfOk, length};
ghost use Rattle.slub_trace.specs.declared.event.Round.{Round as Events};
ghost use Rattle.slub_trace.specs.declared.trace.Trace.{Trace};
ghost use Rattle.slub_lists.specs.State.{State};
ghost use Rattle.slub_lists.specs.Coherent.{IsCoherent};
ghost use Rattle.slub_schedule.specs.Turns.{turns_for};
ghost use Rattle.slub_law_opening.specs.Opening.{IsLaidDown};
ghost use Rattle.slub_calls.specs.Laws.{MayDo};
ghost use Rattle.slub_open_close.specs.declared.beside.Beside.{Beside};
ghost use Rattle.slub_open_close.specs.Ids.{AreIds};
ghost use Rattle.slub_rounds.specs.Room.{all_workers, weight_of};
ghost use Rattle.slub_rounds.specs.Machine.{IsSet};
ghost use Rattle.slub_rounds.specs.Prepared.{IsPrepared};

use crate::answers::Answers;
use crate::begins::begun;
use crate::room::{Room, leave_finished, take_room};
use slub_common::no_memory::NoMemory;
use slub_core::worker_local::Local;
use slub_list_machine::lists::Lists;
use slub_open_close::ids::Ids;
use slub_open_close::opened::{Opened, Rest};
use slub_open_close::opening::open;
use slub_schedule::order::Order;
use slub_trace::event::Round;
use slub_turns::machine::StepMachine;
use std::alloc::Global;

/// The machine in words, its workers with their events to come, and all the memory of the round.
#[derive(Debug, Drop)]
pub struct Prepared {
    pub machine: StepMachine,
    /// What is beside the words.
    pub rest: Rest,
    /// The workers that are unfinished.
    pub order: Order,
    /// How many turns may be made.
    pub turns: u64,
    /// For what is answered.
    pub answers: Answers,
}

/// Takes the memory of a round and opens the lists into words. Where there is no memory the lists are as they were.
pub fn prepare(alloc: Global, lists: Lists, ids: &Ids, round: &Round) -> Result<Prepared, Lists>
    requires coherent { IsCoherent lists }
    requires laid_down { IsLaidDown lists }
    requires objects { length lists.board ≤ 1048577 }
    requires may_do { (trace : Trace) × MayDo lists trace round.now }
    requires ids { AreIds lists ids.now }
    ensures prepared { IfOk result (λ prepared. (b : Beside) × (trace : Trace) × IsPrepared lists ids.now b trace round.now prepared) }
    ensures unprepared { IfErr result (λ left. left ≡ lists) }
{
    let room = match take_room(alloc, &lists, ids, round) {
        Ok(room) => room,
        Err(NoMemory) => return Err(lists),
    };
    let Room {
        beside,
        workers,
        order,
        passed: _,
        turns,
        answers,
    } = room;
    match open(alloc, lists, beside) {
        Ok(opened) => Ok(on_words(opened, workers, order, turns, answers)),
        Err(unopened) => Err(unopened.lists),
    }
}

/// Each worker is given the replies that take no step. `order` has all workers; those that are finished leave it.
fn on_words(
    opened: Opened,
    locals: Vec<Local>,
    mut order: Order,
    turns: u64,
    answers: Answers,
) -> Prepared
    requires set { (s : State) × (ids : List ℕ) × (b : Beside) × (trace : Trace) × (round : Events) × IsSet s ids b trace round opened locals.items answers × (order ≡ all_workers round.workers) }
    ensures { (s : State) (ids : List ℕ) (b : Beside) (trace : Trace) (round : Events) → IsSet s ids b trace round opened locals.items answers → turns ≡ turns_for (weight_of round.events) round.workers → IsPrepared s ids b trace round result }
{
    let (machine, rest) = begun(opened, locals);
    leave_finished(&machine.locals, &mut order);
    Prepared {
        machine,
        rest,
        order,
        turns,
        answers,
    }
}
