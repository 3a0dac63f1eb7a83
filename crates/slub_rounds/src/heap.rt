//! What clients of the allocator allocate from, and rounds on it in the order of the text.

ghost use Rattle.std.specs.Prelude.{◌≡◌, ◌≤◌, None, Some, IfErr, IfOk, length};
ghost use Rattle.slub_trace.specs.declared.trace.Trace.{Trace};
ghost use Rattle.slub_trace.specs.Ranges.{step_of};
ghost use Rattle.slub_calls.specs.Laws.{MayDo};
ghost use Rattle.slub_open_close.specs.Ids.{AreIds};
ghost use Rattle.slub_lists.specs.Coherent.{IsCoherent};
ghost use Rattle.slub_slabinfo_text.specs.Lawful.{IsAtRest};
ghost use Rattle.slub_law_rounds.specs.Round.{IsRound};
ghost use Rattle.slub_rounds.specs.ByText.{IdsLast};
ghost use Rattle.slub_rounds.specs.Heap.{DoesRoundOf, IsSoundHeap, heap_of};
ghost use Rattle.slub_rounds.specs.Stopped.{IsStoppedBy};

use crate::in_order::in_order;
use crate::on_lists::{ids_last, on_lists};
use crate::scheduled as steps;
use crate::text_laws::{rounds_by_text_are_lawful, rounds_by_text_keep_ids};
use slub_common::no_memory::NoMemory;
use slub_engine::item::serial;
use slub_list_machine::lists::Lists;
use slub_open_close::growth::step_of;
use slub_open_close::ids::Ids;
use slub_slabinfo_text::journal::RoundResult;
use slub_trace::event::Round;
use std::alloc::Global;
use std::marker::Model;

/// The machine's lists between two rounds, and beside them the transaction ids of its CPU words, where the trace gives
/// a first one other than 0.
#[derive(Debug, Drop)]
pub struct Heap {
    pub lists: Lists,
    pub ids: Option<Ids>,
}

impl Model for Heap {
    ghost use Rattle.slub_rounds.specs.Heap.{HeapState};

    ghost Value = { HeapState };

    ghost view = { λ h. record { lists = h.lists; ids = h.ids } };
}

/// Why a round wasn't done.
#[derive(Debug, Drop)]
pub enum RoundStopped {
    /// There was no memory for it: the machine is as it was.
    NoMemory(Heap),
    /// All its turns are made, and an event has no reply.
    TurnsSpent,
}

impl Heap {
    /// Does a round in the order of the text: each event to its end before the next one begins.
    ///
    /// Without ids it is done on the lists. With ids, too, where every one is far enough from its end; they grow as the
    /// exchanges of the steps would make them grow. Else it is done by steps. All memory is taken before the first
    /// event, but the bytes of new checked slabs.
    pub fn round_by_text(
        self,
        alloc: Global,
        round: &Round,
    ) -> Result<(Heap, RoundResult), RoundStopped>
        requires sound { IsSoundHeap self }
        requires rest { IsAtRest self.lists }
        requires objects { length self.lists.board ≤ 1048577 }
        requires may_do { (trace : Trace) × MayDo self.lists trace round.now }
        ensures does { IfOk result (λ done. DoesRoundOf self round.now done.1 done.0) }
        ensures lawful { IfOk result (λ done. IsRound self.lists round.now done.1 done.0.lists) }
        ensures sound { IfOk result (λ done. IsSoundHeap done.0) }
        ensures rest { IfOk result (λ done. IsAtRest done.0.lists) }
        ensures stopped { IfErr result (IsStoppedBy self round.now) }
    {
        rounds_by_text_are_lawful();
        rounds_by_text_keep_ids();
        let Heap { lists, ids } = self;
        match ids {
            None => without_ids(alloc, lists, round),
            Some(ids) => beside_ids(alloc, lists, ids, round),
        }
    }
}

/// Does a round beside whose lists no ids stand.
fn without_ids(
    alloc: Global,
    mut lists: Lists,
    round: &Round,
) -> Result<(Heap, RoundResult), RoundStopped>
    requires coherent { IsCoherent lists }
    requires may_do { (trace : Trace) × MayDo lists trace round.now }
    ensures does { IfOk result (λ done. DoesRoundOf (heap_of lists None) round.now done.1 done.0) }
    ensures stopped { IfErr result (IsStoppedBy (heap_of lists None) round.now) }
{
    match serial(alloc, &mut lists, round) {
        Ok(result) => Ok((Heap { lists, ids: None }, result)),
        Err(NoMemory) => Err(RoundStopped::NoMemory(Heap { lists, ids: None })),
    }
}

/// Does a round beside whose lists ids stand: on the lists where they last.
fn beside_ids(
    alloc: Global,
    lists: Lists,
    ids: Ids,
    round: &Round,
) -> Result<(Heap, RoundResult), RoundStopped>
    requires coherent { IsCoherent lists }
    requires rest { IsAtRest lists }
    requires objects { length lists.board ≤ 1048577 }
    requires may_do { (trace : Trace) × MayDo lists trace round.now }
    requires ids { AreIds lists ids }
    ensures does { IfOk result (λ done. DoesRoundOf (heap_of lists (Some ids)) round.now done.1 done.0) }
    ensures stopped { IfErr result (IsStoppedBy (heap_of lists (Some ids)) round.now) }
{
    let step = step_of(lists.cpus());
    if ids_last(ids.by_word.as_slice(), step, round.events.len()) {
        lasting(alloc, lists, ids, step, round)
    } else {
        by_steps(alloc, lists, ids, round)
    }
}

/// Does a round by whose events no id could be spent.
fn lasting(
    alloc: Global,
    mut lists: Lists,
    mut ids: Ids,
    step: u32,
    round: &Round,
) -> Result<(Heap, RoundResult), RoundStopped>
    requires coherent { IsCoherent lists }
    requires objects { length lists.board ≤ 1048577 }
    requires may_do { (trace : Trace) × MayDo lists trace round.now }
    requires ids { AreIds lists ids }
    requires last { IdsLast lists ids round.now }
    requires step { step ≡ step_of lists.cpus }
    ensures does { IfOk result (λ done. DoesRoundOf (heap_of lists (Some ids)) round.now done.1 done.0) }
    ensures stopped { IfErr result (IsStoppedBy (heap_of lists (Some ids)) round.now) }
{
    match on_lists(alloc, &mut lists, &mut ids.by_word, step, round) {
        Ok(result) => Ok((
            Heap {
                lists,
                ids: Some(ids),
            },
            result,
        )),
        Err(NoMemory) => Err(RoundStopped::NoMemory(Heap {
            lists,
            ids: Some(ids),
        })),
    }
}

/// Does a round by whose events an id may be spent: by steps.
fn by_steps(
    alloc: Global,
    lists: Lists,
    ids: Ids,
    round: &Round,
) -> Result<(Heap, RoundResult), RoundStopped>
    requires coherent { IsCoherent lists }
    requires rest { IsAtRest lists }
    requires objects { length lists.board ≤ 1048577 }
    requires may_do { (trace : Trace) × MayDo lists trace round.now }
    requires ids { AreIds lists ids }
    requires spent { ¬ IdsLast lists ids round.now }
    ensures does { IfOk result (λ done. DoesRoundOf (heap_of lists (Some ids)) round.now done.1 done.0) }
    ensures stopped { IfErr result (IsStoppedBy (heap_of lists (Some ids)) round.now) }
{
    match in_order(alloc, lists, &ids, round) {
        Ok(ended) => Ok((
            Heap {
                lists: ended.lists,
                ids: Some(ended.ids),
            },
            ended.result,
        )),
        Err(steps::StepsStopped::NoMemory(lists)) => Err(RoundStopped::NoMemory(Heap {
            lists,
            ids: Some(ids),
        })),
        Err(steps::StepsStopped::TurnsSpent) => Err(RoundStopped::TurnsSpent),
    }
}
