//! A round that is watched, of however many workers.

ghost use Rattle.std.specs.Prelude.{◌≡◌, ◌≤◌, None, Some, IfErr, IfOk, length};
ghost use Rattle.slub_trace.specs.declared.trace.Trace.{Trace};
ghost use Rattle.slub_lists.specs.Coherent.{IsCoherent};
ghost use Rattle.slub_calls.specs.Laws.{MayDo};
ghost use Rattle.slub_open_close.specs.Ids.{AreIds};
ghost use Rattle.slub_slabinfo_text.specs.Lawful.{IsAtRest};
ghost use Rattle.slub_law_rounds.specs.Round.{IsRound};
ghost use Rattle.slub_rounds.specs.Heap.{IsSoundHeap};
ghost use Rattle.slub_law_replay.specs.Ways.{ids_before};
ghost use Rattle.slub_items.specs.Watched.{DoesWatched, IsUnwatched};

use slub_common::no_memory::NoMemory;
use slub_list_machine::lists::Lists;
use slub_open_close::ids::Ids;
use slub_rounds::heap::Heap;
use slub_rounds::watched::{Unwatched as StepsUnwatched, watched};
use slub_slabinfo_text::journal::RoundResult;
use slub_trace::event::Round;
use slub_turns::watch::Watch;
use std::alloc::Global;

/// Why a round that is watched wasn't done on what was given.
#[derive(Drop)]
pub enum Unwatched<G, H> {
    /// There was no memory for it: what was given is as it was, and the watcher was told nothing.
    NoMemory(G),
    /// All its turns are made, and a worker is unfinished.
    TurnsSpent,
    /// The watcher had it end.
    Halted(H),
}

/// Does a round that is watched, from the ids beside the lists; where none stand there, from new ones, which aren't
/// kept.
pub fn on_heap<W: Watch>(
    alloc: Global,
    heap: Heap,
    round: &Round,
    watch: W,
) -> (
    Result<(Heap, RoundResult, Option<Ids>), Unwatched<Heap, W::Halt>>,
    W,
)
    requires sound { IsSoundHeap heap }
    requires rest { IsAtRest heap.lists }
    requires objects { length heap.lists.board ≤ 1048577 }
    requires may_do { (trace : Trace) × MayDo heap.lists trace round.now }
    ensures does { IfOk result.0 (λ done. DoesWatched W.begins_round W.chooses W.hears W.is_done watch result.1 heap.lists heap.ids round.now done.1 done.0.lists done.0.ids done.2) }
    ensures lawful { IfOk result.0 (λ done. IsRound heap.lists round.now done.1 done.0.lists) }
    ensures sound { IfOk result.0 (λ done. IsSoundHeap done.0) }
    ensures unwatched { IfErr result.0 (IsUnwatched W.begins_round W.chooses W.hears W.halts heap heap.lists (ids_before heap.lists heap.ids) round.now watch result.1) }
{
    let Heap { lists, ids } = heap;
    match ids {
        Some(ids) => beside(alloc, lists, ids, round, watch),
        None => anew(alloc, lists, round, watch),
    }
}

/// From the ids that stand beside the lists.
fn beside<W: Watch>(
    alloc: Global,
    lists: Lists,
    ids: Ids,
    round: &Round,
    watch: W,
) -> (
    Result<(Heap, RoundResult, Option<Ids>), Unwatched<Heap, W::Halt>>,
    W,
)
    requires coherent { IsCoherent lists }
    requires rest { IsAtRest lists }
    requires objects { length lists.board ≤ 1048577 }
    requires may_do { (trace : Trace) × MayDo lists trace round.now }
    requires ids { AreIds lists ids }
    ensures does { IfOk result.0 (λ done. DoesWatched W.begins_round W.chooses W.hears W.is_done watch result.1 lists (Some ids) round.now done.1 done.0.lists done.0.ids done.2) }
    ensures lawful { IfOk result.0 (λ done. IsRound lists round.now done.1 done.0.lists) }
    ensures sound { IfOk result.0 (λ done. IsSoundHeap done.0) }
    ensures unwatched { IfErr result.0 (IsUnwatched W.begins_round W.chooses W.hears W.halts (record { lists = lists; ids = Some ids }) lists ids round.now watch result.1) }
{
    let (ran, watch) = watched(alloc, lists, &ids, round, watch);
    match ran {
        Ok(ended) => {
            let heap = Heap {
                lists: ended.lists,
                ids: Some(ended.ids),
            };
            (Ok((heap, ended.result, None)), watch)
        }
        Err(StepsUnwatched::NoMemory(lists)) => {
            let heap = Heap {
                lists,
                ids: Some(ids),
            };
            (Err(Unwatched::NoMemory(heap)), watch)
        }
        Err(StepsUnwatched::TurnsSpent) => (Err(Unwatched::TurnsSpent), watch),
        Err(StepsUnwatched::Halted(why)) => (Err(Unwatched::Halted(why)), watch),
    }
}

/// With new ids (`init_tid`), which aren't kept: those after the round are given besides.
fn anew<W: Watch>(
    alloc: Global,
    lists: Lists,
    round: &Round,
    watch: W,
) -> (
    Result<(Heap, RoundResult, Option<Ids>), Unwatched<Heap, W::Halt>>,
    W,
)
    requires coherent { IsCoherent lists }
    requires rest { IsAtRest lists }
    requires objects { length lists.board ≤ 1048577 }
    requires may_do { (trace : Trace) × MayDo lists trace round.now }
    ensures does { IfOk result.0 (λ done. DoesWatched W.begins_round W.chooses W.hears W.is_done watch result.1 lists None round.now done.1 done.0.lists done.0.ids done.2) }
    ensures lawful { IfOk result.0 (λ done. IsRound lists round.now done.1 done.0.lists) }
    ensures sound { IfOk result.0 (λ done. IsSoundHeap done.0) }
    ensures unwatched { IfErr result.0 (IsUnwatched W.begins_round W.chooses W.hears W.halts (record { lists = lists; ids = None }) lists (ids_before lists None) round.now watch result.1) }
{
    let first = match Ids::first(alloc, 0, lists.cpus()) {
        Ok(first) => first,
        Err(NoMemory) => {
            return (Err(Unwatched::NoMemory(Heap { lists, ids: None })), watch);
        }
    };
    let (ran, watch) = watched(alloc, lists, &first, round, watch);
    match ran {
        Ok(ended) => {
            let heap = Heap {
                lists: ended.lists,
                ids: None,
            };
            (Ok((heap, ended.result, Some(ended.ids))), watch)
        }
        Err(StepsUnwatched::NoMemory(lists)) => {
            (Err(Unwatched::NoMemory(Heap { lists, ids: None })), watch)
        }
        Err(StepsUnwatched::TurnsSpent) => (Err(Unwatched::TurnsSpent), watch),
        Err(StepsUnwatched::Halted(why)) => (Err(Unwatched::Halted(why)), watch),
    }
}
