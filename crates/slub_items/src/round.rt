//! A round, by the way of the replay.

ghost use Rattle.std.specs.Prelude.{◌≡◌, ◌<◌, ◌≤◌, None, Some, IfErr, IfOk, length};
ghost use Rattle.slub_trace.specs.declared.trace.Trace.{Trace};
ghost use Rattle.slub_lists.specs.Coherent.{IsCoherent};
ghost use Rattle.slub_calls.specs.Laws.{MayDo};
ghost use Rattle.slub_open_close.specs.Ids.{AreIds};
ghost use Rattle.slub_slabinfo_text.specs.Lawful.{IsAtRest};
ghost use Rattle.slub_law_rounds.specs.Round.{IsRound};
ghost use Rattle.slub_rounds.specs.Rounds.{DoesRoundByThreads};
ghost use Rattle.slub_rounds.specs.Heap.{IsSoundHeap};
ghost use Rattle.slub_law_replay.specs.Ways.{DoesRoundBy};
ghost use Rattle.slub_items.specs.Stopped.{AreStepsStopped, IsRoundStopped};

use slub_common::no_memory::NoMemory;
use slub_edges::gate::Gate;
use slub_law_replay::way::Way;
use slub_list_machine::lists::Lists;
use slub_open_close::ids::Ids;
use slub_rounds::ended::Ended;
use slub_rounds::heap::{Heap, RoundStopped};
use slub_rounds::scheduled::{StepsStopped, scheduled};
use slub_rounds::threaded::threaded;
use slub_slabinfo_text::journal::RoundResult;
use slub_trace::event::Round;
use std::alloc::Global;
use std::sync::Wait;
use std::thread::Threads;

/// Does a round by a way, after so many `round` lines. A round of one worker is done in the order of the text, each
/// event to its end, and so is every round by `Serial`; by `Schedule` the workers make the turns that the seed draws,
/// and by `Threads` each works in a thread of its own.
///
/// Where transaction ids stand beside the lists, a round of several workers by `Schedule` or `Threads` goes on from
/// them. Where none do, it begins with new ones, which aren't kept.
pub fn by_way<R: Threads + Wait + Sync, G: Gate + Sync>(
    rt: &R,
    gate: &G,
    alloc: Global,
    heap: Heap,
    round: &Round,
    rounds: u64,
    way: Way,
) -> Result<(Heap, RoundResult), RoundStopped>
    requires sound { IsSoundHeap heap }
    requires rest { IsAtRest heap.lists }
    requires objects { length heap.lists.board ≤ 1048577 }
    requires may_do { (trace : Trace) × MayDo heap.lists trace round.now }
    ensures does { IfOk result (λ done.
        DoesRoundBy way rounds heap.lists heap.ids round.now done.1 done.0.lists done.0.ids) }
    ensures lawful { IfOk result (λ done. IsRound heap.lists round.now done.1 done.0.lists) }
    ensures sound { IfOk result (λ done. IsSoundHeap done.0) }
    ensures stopped { IfErr result (IsRoundStopped way rounds heap round.now) }
{
    if round.workers <= 1 {
        return heap.round_by_text(alloc, round);
    }
    match way {
        Way::Serial => heap.round_by_text(alloc, round),
        Way::Schedule { .. } | Way::Threads => {
            of_several(rt, gate, alloc, heap, round, rounds, way)
        }
    }
}

/// Does a round of two or more workers by steps.
fn of_several<R: Threads + Wait + Sync, G: Gate + Sync>(
    rt: &R,
    gate: &G,
    alloc: Global,
    heap: Heap,
    round: &Round,
    rounds: u64,
    way: Way,
) -> Result<(Heap, RoundResult), RoundStopped>
    requires sound { IsSoundHeap heap }
    requires rest { IsAtRest heap.lists }
    requires objects { length heap.lists.board ≤ 1048577 }
    requires may_do { (trace : Trace) × MayDo heap.lists trace round.now }
    requires several { 1 < round.now.workers }
    requires steps { way ≡ Way.Serial → ⊥ }
    ensures does { IfOk result (λ done.
        DoesRoundBy way rounds heap.lists heap.ids round.now done.1 done.0.lists done.0.ids) }
    ensures lawful { IfOk result (λ done. IsRound heap.lists round.now done.1 done.0.lists) }
    ensures sound { IfOk result (λ done. IsSoundHeap done.0) }
    ensures stopped { IfErr result (IsRoundStopped way rounds heap round.now) }
{
    let Heap { lists, ids } = heap;
    match ids {
        Some(ids) => beside(rt, gate, alloc, lists, ids, round, rounds, way),
        None => anew(rt, gate, alloc, lists, round, rounds, way),
    }
}

// ---- where ids stand beside the lists

/// Does a round by steps, from the ids that stand beside the lists.
fn beside<R: Threads + Wait + Sync, G: Gate + Sync>(
    rt: &R,
    gate: &G,
    alloc: Global,
    lists: Lists,
    ids: Ids,
    round: &Round,
    rounds: u64,
    way: Way,
) -> Result<(Heap, RoundResult), RoundStopped>
    requires coherent { IsCoherent lists }
    requires rest { IsAtRest lists }
    requires objects { length lists.board ≤ 1048577 }
    requires may_do { (trace : Trace) × MayDo lists trace round.now }
    requires ids { AreIds lists ids }
    requires several { 1 < round.now.workers }
    requires steps { way ≡ Way.Serial → ⊥ }
    ensures does { IfOk result (λ done.
        DoesRoundBy way rounds lists (Some ids) round.now done.1 done.0.lists done.0.ids) }
    ensures lawful { IfOk result (λ done. IsRound lists round.now done.1 done.0.lists) }
    ensures sound { IfOk result (λ done. IsSoundHeap done.0) }
    ensures stopped { IfErr result
        (IsRoundStopped way rounds (record { lists = lists; ids = Some ids }) round.now) }
{
    match by_steps(rt, gate, alloc, lists, &ids, round, rounds, way) {
        Ok(ended) => Ok((
            Heap {
                lists: ended.lists,
                ids: Some(ended.ids),
            },
            ended.result,
        )),
        Err(StepsStopped::NoMemory(lists)) => Err(RoundStopped::NoMemory(Heap {
            lists,
            ids: Some(ids),
        })),
        Err(StepsStopped::TurnsSpent) => Err(RoundStopped::TurnsSpent),
    }
}

/// Does a round of two or more workers by steps, from these ids.
fn by_steps<R: Threads + Wait + Sync, G: Gate + Sync>(
    rt: &R,
    gate: &G,
    alloc: Global,
    lists: Lists,
    ids: &Ids,
    round: &Round,
    rounds: u64,
    way: Way,
) -> Result<Ended, StepsStopped>
    requires coherent { IsCoherent lists }
    requires rest { IsAtRest lists }
    requires objects { length lists.board ≤ 1048577 }
    requires may_do { (trace : Trace) × MayDo lists trace round.now }
    requires ids { AreIds lists ids.now }
    requires several { 1 < round.now.workers }
    requires steps { way ≡ Way.Serial → ⊥ }
    ensures does { IfOk result (λ done.
        DoesRoundBy way rounds lists (Some ids.now) round.now done.result done.lists (Some done.ids)) }
    ensures lawful { IfOk result (λ done. IsRound lists round.now done.result done.lists) }
    ensures coherent { IfOk result (λ done. IsCoherent done.lists) }
    ensures ids { IfOk result (λ done. AreIds done.lists done.ids) }
    ensures stopped { IfErr result (AreStepsStopped way rounds lists (Some ids.now) round.now) }
{
    match way {
        Way::Serial => unreachable!(),
        Way::Schedule { seed } => scheduled(alloc, lists, ids, round, seed.wrapping_add(rounds)),
        Way::Threads => in_threads(rt, gate, alloc, lists, ids, round),
    }
}

/// Does a round of two or more workers in threads.
fn in_threads<R: Threads + Wait + Sync, G: Gate + Sync>(
    rt: &R,
    gate: &G,
    alloc: Global,
    lists: Lists,
    ids: &Ids,
    round: &Round,
) -> Result<Ended, StepsStopped>
    requires coherent { IsCoherent lists }
    requires rest { IsAtRest lists }
    requires objects { length lists.board ≤ 1048577 }
    requires may_do { (trace : Trace) × MayDo lists trace round.now }
    requires ids { AreIds lists ids.now }
    ensures does { IfOk result (λ done.
        DoesRoundByThreads lists ids.now round.now done.result done.lists done.ids) }
    ensures lawful { IfOk result (λ done. IsRound lists round.now done.result done.lists) }
    ensures coherent { IfOk result (λ done. IsCoherent done.lists) }
    ensures ids { IfOk result (λ done. AreIds done.lists done.ids) }
    ensures stopped { IfErr result (λ why. why ≡ StepsStopped.NoMemory lists) }
{
    match threaded(rt, gate, alloc, lists, ids, round) {
        Ok(ended) => Ok(ended),
        Err(lists) => Err(StepsStopped::NoMemory(lists)),
    }
}

// ---- where none do

/// Does a round of two or more workers by steps, with new ids (`init_tid`).
fn anew<R: Threads + Wait + Sync, G: Gate + Sync>(
    rt: &R,
    gate: &G,
    alloc: Global,
    lists: Lists,
    round: &Round,
    rounds: u64,
    way: Way,
) -> Result<(Heap, RoundResult), RoundStopped>
    requires coherent { IsCoherent lists }
    requires rest { IsAtRest lists }
    requires objects { length lists.board ≤ 1048577 }
    requires may_do { (trace : Trace) × MayDo lists trace round.now }
    requires several { 1 < round.now.workers }
    requires steps { way ≡ Way.Serial → ⊥ }
    ensures does { IfOk result (λ done.
        DoesRoundBy way rounds lists None round.now done.1 done.0.lists done.0.ids) }
    ensures lawful { IfOk result (λ done. IsRound lists round.now done.1 done.0.lists) }
    ensures sound { IfOk result (λ done. IsSoundHeap done.0) }
    ensures stopped { IfErr result
        (IsRoundStopped way rounds (record { lists = lists; ids = None }) round.now) }
{
    let first = match Ids::first(alloc, 0, lists.cpus()) {
        Ok(first) => first,
        Err(NoMemory) => return Err(RoundStopped::NoMemory(Heap { lists, ids: None })),
    };
    match by_steps(rt, gate, alloc, lists, &first, round, rounds, way) {
        Ok(ended) => Ok((
            Heap {
                lists: ended.lists,
                ids: None,
            },
            ended.result,
        )),
        Err(StepsStopped::NoMemory(lists)) => Err(RoundStopped::NoMemory(Heap {
            lists,
            ids: None,
        })),
        Err(StepsStopped::TurnsSpent) => Err(RoundStopped::TurnsSpent),
    }
}
