//! The memory of a round, taken before its first turn.

ghost use Rattle.std.specs.Prelude.{◌≡◌, ◌*◌, ◌^◌, ◌≤◌, IfOk, length, replicate};
ghost use Rattle.slub_trace.specs.declared.trace.Trace.{Trace};
ghost use Rattle.slub_lists.specs.Coherent.{IsCoherent};
ghost use Rattle.slub_schedule.specs.Schedule.{marks_of, places_of};
ghost use Rattle.slub_calls.specs.Laws.{MayDo};
ghost use Rattle.slub_open_close.specs.Ids.{AreIds};
ghost use Rattle.slub_rounds.specs.Room.{IsTakenFor, all_workers, weight_in, weight_of};

use crate::answers::Answers;
use slub_calls::workers::workers;
use slub_common::no_memory::NoMemory;
use slub_core::worker_local::Local;
use slub_list_machine::lists::Lists;
use slub_open_close::beside::Beside;
use slub_open_close::ids::Ids;
use slub_open_close::laws::besides_fit;
use slub_schedule::order::Order;
use slub_schedule::turns::turns_for;
use slub_trace::event::{Act, Event, Round};
use slub_turns::begin::is_finished;
use std::alloc::Global;

/// The memory of a round, but for its words.
#[derive(Debug, Drop)]
pub struct Room {
    pub beside: Beside,
    /// Each with all its events to come.
    pub workers: Vec<Local>,
    /// All workers.
    pub order: Order,
    /// By worker, how many of its events are done: none is.
    pub passed: Vec<usize>,
    /// How many turns may be made.
    pub turns: u64,
    /// For what is answered.
    pub answers: Answers,
}

/// Takes the memory of a round.
pub fn take_room(alloc: Global, lists: &Lists, ids: &Ids, round: &Round) -> Result<Room, NoMemory>
    requires coherent { IsCoherent lists.now }
    requires objects { length lists.now.board ≤ 1048577 }
    requires may_do { (trace : Trace) × MayDo lists.now trace round.now }
    requires ids { AreIds lists.now ids.now }
    ensures { IfOk result (IsTakenFor lists.now ids.now round.now) }
{
    besides_fit();
    let events = round.events.as_slice();
    let beside = Beside::of(alloc, ids, lists.frames(), lists.cpus())?;
    let workers = workers(alloc, lists.caches(), round)?;
    let order = all_workers(alloc, round.workers)?;
    let passed = none_passed(alloc, round.workers)?;
    let turns = turns_for(weight_of(events), round.workers);
    let answers = Answers::open(alloc, lists, events.len(), round.workers as usize)?;
    Ok(Room {
        beside,
        workers,
        order,
        passed,
        turns,
        answers,
    })
}

/// So many workers, none of which is finished.
fn all_workers(alloc: Global, count: u32) -> Result<Order, NoMemory>
    ensures { IfOk result (λ order. order ≡ all_workers count) }
{
    let marks = vec![in alloc; true; count as usize]?;
    Order::open(alloc, &marks)
}

/// Of each of so many workers no event is done.
fn none_passed(alloc: Global, workers: u32) -> Result<Vec<usize>, NoMemory>
    ensures { IfOk result (λ passed. passed.items ≡ replicate workers 0) }
{
    let passed = vec![in alloc; 0; workers as usize]?;
    Ok(passed)
}

/// As how many events the turns of a round count these.
fn weight_of(events: &[Event]) -> u64
    requires { length events.now ≤ 2 ^ 32 }
    ensures weight { result ≡ weight_of events.now }
    ensures few { result ≤ 16 * length events.now }
{
    let mut weight: u64 = 0;
    for event in events {
        weight += weight_in(&event.act);
    }
    weight
}

/// As how many events the turns of a round count an act.
fn weight_in(act: &Act) -> u64
    ensures weight { result ≡ weight_in act.now }
    ensures few { result ≤ 16 }
{
    match act {
        Act::Trim { cache: _ } | Act::Flush => 16,
        _ => 1,
    }
}

/// Of all workers the finished ones leave the order.
pub fn leave_finished(locals: &[Local], order: &mut Order)
    requires { order.old ≡ all_workers (length locals.now) }
    ensures { order.new ≡ places_of (marks_of locals.now) }
{
    for done in 0..locals.len() {
        let worker = locals.len() - 1 - done;
        if is_finished(&locals[worker]) {
            order.remove(worker);
        }
    }
}
