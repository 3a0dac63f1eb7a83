//! A round at a table that threads may share: opened with the round, and closed into lists.
//!
//! In between its workers make their events: by `round` of `slub_workers`, each in a thread of its own, or by
//! `Worker::call` up to `Workers::end`, in whatever order. Where each has its reply, and none was a try, the table closes
//! into a lawful round by threads.

ghost use Rattle.std.specs.Prelude.{◌≡◌, ◌≤◌, ℕ, List, IfErr, IfOk, MatchResult, length};
ghost use Rattle.slub_trace.specs.declared.event.Round.{Round as Events};
ghost use Rattle.slub_trace.specs.declared.trace.Trace.{Trace};
ghost use Rattle.slub_lists.specs.State.{State};
ghost use Rattle.slub_lists.specs.Coherent.{IsCoherent};
ghost use Rattle.slub_words.specs.Stored.{AreStored};
ghost use Rattle.slub_law_opening.specs.Opening.{IsLaidDown};
ghost use Rattle.slub_calls.specs.Laws.{MayDo};
ghost use Rattle.slub_open_close.specs.declared.beside.Beside.{Beside};
ghost use Rattle.slub_open_close.specs.Ids.{AreIds};
ghost use Rattle.slub_law_rounds.specs.Round.{IsRound};
ghost use Rattle.slub_workers.specs.Ends.{AreFinished, AreGathered, AreSeated, AreUntried};
ghost use Rattle.slub_workers.specs.Tables.{begun_at, table_of};
ghost use Rattle.slub_rounds.specs.Machine.{IsDoneByThreads, IsSetForThreads, WasKept};
ghost use Rattle.slub_rounds.specs.Seated.{IsSeatedFor, OpensAt};

use crate::answers::Answers;
use crate::begins::begun;
use crate::ended::Ended;
use crate::ends::closed;
use crate::laws::rounds_by_threads_are_lawful;
use crate::room::{Room, take_room};
use slub_common::no_memory::NoMemory;
use slub_core::worker_local::Local;
use slub_list_machine::lists::Lists;
use slub_open_close::ids::Ids;
use slub_open_close::opened::{Opened, Rest};
use slub_open_close::opening::open;
use slub_open_close::undoing::put_back;
use slub_trace::event::Round;
use slub_turns::machine::StepMachine;
use slub_workers::round as tables;
use slub_workers::shared::Shared;
use slub_workers::workers::{Ended as Gathered, Workers};
use std::alloc::Global;

/// What waits for the end of a round while its workers are at their table.
#[derive(Debug, Drop)]
pub struct Waiting {
    pub(crate) rest: Rest,
    /// For what is answered.
    pub(crate) answers: Answers,
}

/// A table that was opened with a round, and its workers. It has to be closed.
pub struct Seated {
    pub shared: Shared,
    pub workers: Workers,
    pub waiting: Waiting,
}

/// Opens lists, and the transaction ids beside them, into a table for the workers of a round.
///
/// All memory of the round is taken here, but the bytes of new checked slabs; where none is found, the lists are given
/// back as they were.
pub fn seat_workers(alloc: Global, lists: Lists, ids: &Ids, round: &Round) -> Result<Seated, Lists>
    requires coherent { IsCoherent lists }
    requires laid_down { IsLaidDown lists }
    requires objects { length lists.board ≤ 1048577 }
    requires may_do { (trace : Trace) × MayDo lists trace round.now }
    requires ids { AreIds lists ids.now }
    ensures opens { IfOk result (λ seats. OpensAt lists ids.now round.now (begun_at seats.shared) seats.waiting) }
    ensures seated { IfOk result (λ seats. AreSeated (begun_at seats.shared) (table_of seats.shared) seats.workers) }
    ensures unopened { IfErr result (λ after. after ≡ lists) }
{
    let room = match take_room(alloc, &lists, ids, round) {
        Ok(room) => room,
        Err(NoMemory) => return Err(lists),
    };
    let (lists, kept) = keep_words(alloc, lists);
    let kept = match kept {
        Ok(kept) => kept,
        Err(NoMemory) => return Err(lists),
    };
    let Room {
        beside,
        workers,
        order: _,
        passed: _,
        turns: _,
        answers,
    } = room;
    match open(alloc, lists, beside) {
        Ok(opened) => at_table(alloc, opened, workers, kept, answers),
        Err(unopened) => Err(unopened.lists),
    }
}

/// The words of the frames up to the last one that was written, kept for the case that the round can't begin once the
/// lists are opened.
fn keep_words(alloc: Global, lists: Lists) -> (Lists, Result<Vec<u64>, NoMemory>)
    ensures lists { result.0 ≡ lists }
    ensures kept { IfOk result.1 (λ kept. AreStored kept.items lists.memory) }
{
    let parts = lists.into_parts();
    let kept = parts.memory.stored(alloc);
    (Lists::from_parts(parts), kept)
}

/// Puts the lists together again of a round that couldn't begin. These words of the frames were kept.
fn undone(machine: StepMachine, rest: Rest, kept: Vec<u64>) -> Lists
    requires { (s : State) × WasKept s machine rest kept.items }
    ensures { (s : State) → WasKept s machine rest kept.items → result ≡ s }
{
    let StepMachine {
        setup: _,
        table,
        values,
        locals: _,
    } = machine;
    let mut memory = table.into_memory();
    memory.restore(kept.as_slice());
    put_back(values, rest, memory)
}

/// Gives the workers of the machine in words seats at a table. Where there is no memory for it, the lists are put
/// together again as they were.
fn at_table(
    alloc: Global,
    opened: Opened,
    locals: Vec<Local>,
    kept: Vec<u64>,
    answers: Answers,
) -> Result<Seated, Lists>
    requires set { (s : State) × (ids : List ℕ) × (b : Beside) × (trace : Trace) × (round : Events) × IsSetForThreads s ids b trace round opened locals.items kept.items answers }
    ensures { (s : State) (ids : List ℕ) (b : Beside) (trace : Trace) (round : Events) → IsSetForThreads s ids b trace round opened locals.items kept.items answers → MatchResult result (λ seats. IsSeatedFor s ids round seats) (λ after. after ≡ s) }
{
    let (machine, rest) = begun(opened, locals);
    let objects = rest.board.len() as u32;
    match tables::open(alloc, rest.frames, objects, machine) {
        Ok(seats) => {
            let (shared, workers) = seats;
            Ok(Seated {
                shared,
                workers,
                waiting: Waiting { rest, answers },
            })
        }
        Err(unopened) => Err(undone(unopened.machine, rest, kept)),
    }
}

/// Closes the table of a round into lists, and tells what came of it. All workers have given their seats back, each of
/// their events has a reply, and none was a try.
pub fn closed_at(shared: Shared, waiting: Waiting, gathered: Gathered, round: &Round) -> Ended
    requires opened { (s : State) × (ids : List ℕ) × OpensAt s ids round.now (begun_at shared) waiting }
    requires ended { AreGathered (table_of shared) (length (begun_at shared).locals) gathered }
    requires untried { AreUntried gathered }
    requires finished { AreFinished gathered }
    ensures does { (s : State) (ids : List ℕ) → OpensAt s ids round.now (begun_at shared) waiting → IsDoneByThreads s ids round.now result }
    ensures lawful { (s : State) (ids : List ℕ) → OpensAt s ids round.now (begun_at shared) waiting → IsRound s round.now result.result result.lists }
{
    rounds_by_threads_are_lawful();
    let Waiting { rest, answers } = waiting;
    let machine = shared.close(gathered);
    closed(machine, rest, round, answers)
}
