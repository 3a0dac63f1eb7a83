//! What holds of rounds by steps in the order of the text. None of these does anything.
//!
//! The next turn is that of the worker which is in a call, else that of the first event without a
//! reply (`slub_rounds`). Where no reply is that memory was lacking, and no transaction id of an
//! unchecked cache is spent after the round, it is one on plain lists, with the same replies,
//! damages and ledgers, and leaves the same lists but for words of frames. The other way round,
//! what is done on the lists, ids beside them, where they last and memory is there for each reply,
//! is such a run of steps.
//!
//! How it is proved: a turn that is refused memory is the same as one that isn't, or its call has
//! the reply that memory was lacking (`proofs/Refused.antt`). The turns by which the events are
//! made one after the other (`slub_law_alone`) are in this order (`proofs/InOrder.antt`): between
//! its first turn and its last one a worker is in its call. Two runs in this order that end with
//! every worker finished lead to one machine (`order_laws`), which rests in the lists of the
//! events; and what it rests in is the same lists but for words of frames (`proofs/Whole.antt`).
//! Where an id were spent before the last event has its reply, the run would go by that machine,
//! and the id would be spent after the round, since no turn makes one fall
//! (`proofs/NeverFall.antt`).

ghost use Rattle.slub_law_replay.specs.InText.{RoundsInOrderAreThoseOfLists, RoundsOnListsAreRuns};

/// A round by steps, each event to its end, is one on the lists but for words that nobody wrote, where memory is there
/// for each reply, and no transaction id is spent after it.
pub fn rounds_in_order_are_those_of_lists()
    ensures { RoundsInOrderAreThoseOfLists }
{}

/// A round on the lists, ids beside them, is a run of atomic steps, where the ids last and memory is there for each
/// reply.
pub fn rounds_on_lists_are_runs()
    ensures { RoundsOnListsAreRuns }
{}
