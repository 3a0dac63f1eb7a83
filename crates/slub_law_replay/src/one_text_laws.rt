//! What is done by a way has one outcome. None of these does anything.
//!
//! So a program that is proved to write the text of a lawful journal has no choice left, but where
//! it ends early, where memory lacks, or where threads of several workers make a round. The laws
//! speak of runs in which no reply is that memory was lacking for the bytes of a new slab of a
//! checked cache.

ghost use Rattle.slub_law_replay.specs.Journals.{JournalsAreOne, TextsAreOne};
ghost use Rattle.slub_law_replay.specs.Lines.{LinesHaveOneOutcome};
ghost use Rattle.slub_law_replay.specs.OneTextRounds.{RoundsBySeedHaveOneOutcome, RoundsByTextHaveOneOutcome, RoundsInOrderHaveOneOutcome, RoundsOfAWayHaveOneOutcome};

/// A round in turns that a seed draws has one result, and leaves one machine with its transaction ids.
pub fn rounds_by_seed_have_one_outcome()
    ensures { RoundsBySeedHaveOneOutcome }
{}

/// So does one by steps in the order of the text.
pub fn rounds_in_order_have_one_outcome()
    ensures { RoundsInOrderHaveOneOutcome }
{}

/// And so does one in the order of the text, with transaction ids beside the lists or without.
pub fn rounds_by_text_have_one_outcome()
    ensures { RoundsByTextHaveOneOutcome }
{}

/// A round has one outcome by any way, but where threads of several workers make it.
pub fn rounds_of_a_way_have_one_outcome()
    ensures { RoundsOfAWayHaveOneOutcome }
{}

/// A client's line makes the same rounds, is answered the same, and leaves the same machine and reserves.
pub fn lines_have_one_outcome()
    ensures { LinesHaveOneOutcome }
{}

/// Two lawful journals of as many items of a trace, by one way and seed, are the same: where no reply is that memory was
/// lacking, where both have a total or neither does, and by threads where no round is of several workers.
pub fn journals_are_one()
    ensures { JournalsAreOne }
{}

/// So their texts are, by the same premises: what a replay prints is then a function of the trace, the way and the seed.
pub fn texts_are_one()
    ensures { TextsAreOne }
{}
