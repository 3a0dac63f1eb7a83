//! What holds of rounds in the order of the text. None of these does anything.

ghost use Rattle.slub_rounds.specs.TextLaws.{RoundsByTextAreLawful, RoundsByTextKeepIds};

/// A round that is done in the order of the text is lawful in the words of the text.
pub fn rounds_by_text_are_lawful()
    ensures { RoundsByTextAreLawful }
{}

/// Ids that fit the machine fit it after a round, too.
pub fn rounds_by_text_keep_ids()
    ensures { RoundsByTextKeepIds }
{}
