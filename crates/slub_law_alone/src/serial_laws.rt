//! What holds of rounds in the order of the text. None of these does anything.
//!
//! Be the caches checked or not, each worker is answered as on the lists, and the machine comes to
//! rest in the lists that the events leave. Only words of unchecked objects that were given in the
//! round, as far as their holders didn't write them since, may differ (`IsSameWritten`). Beside the
//! lists only transaction ids have grown, by a step for each change of their word: `RunsWithIds`
//! has the number of changes event by event, `IsGrown` the most that the events make. An id that
//! the last change spends does no harm. A reply that takes no step is given as soon as the worker
//! stands between two calls, maybe before earlier events of other workers; it is that of the lists
//! at the event's own place in the text, and changes nothing.
//!
//! How it is proved: `proofs/Middle.antt` says what is so between two events (`IsInText`): the
//! machine rests in lists that are those of the text but for words that nobody wrote, and each
//! worker has its events to come and was told what the lists told it (`proofs/Scripts.antt`).
//! `proofs/Acts.antt`, `proofs/Away.antt` and `proofs/Pokes.antt` make one event more (`Stepped`),
//! by the law on its call or, where the reply takes no step, by what the worker knows of the object
//! (`proofs/SerialUses.antt`). What the lists note as freed by a worker is what it knows and
//! doesn't hold (`proofs/Knowing.antt`): so a poke of a freed object is answered as on the lists.
//! Operations on lists don't look at the words of the frames (`proofs/Memory.antt`,
//! `proofs/Emptying.antt`), so that what holds of the machine's lists holds of those of the text.
//! `proofs/SerialRounds.antt` goes through the events. That each finds the ids that it needs is
//! known from those before the round (`proofs/Needs.antt`), or else one is spent there: before the
//! call's first turn, or once it has taken the current slab off its CPU (`proofs/Spends.antt`).

ghost use Rattle.slub_law_alone.specs.SerialLaws.{RoundsInTextAreThoseOfLists};
ghost use Rattle.slub_law_alone.specs.OnTheWay.{RoundsInTextAreThoseOfListsOrSpend};
ghost use Rattle.slub_law_alone.specs.Only.{RunsOfListsAreRounds};

/// A round whose events are made one after the other, each to its end, gives what they give on plain lists.
pub fn rounds_in_text_are_those_of_lists()
    ensures { RoundsInTextAreThoseOfLists }
{}

/// However near to their end the transaction ids are, such a round gives this, or it spends one on the way.
pub fn rounds_in_text_are_those_of_lists_or_spend()
    ensures { RoundsInTextAreThoseOfListsOrSpend }
{}

/// Whatever the lists give, where memory is there, such a round gives.
pub fn runs_of_lists_are_rounds()
    ensures { RunsOfListsAreRounds }
{}
