//! What holds of rounds of several workers. None of these does anything.

ghost use Rattle.slub_law_rounds.specs.Laws.{DrawnRoundsAreLawful, RoundsAreLawful};

/// A round that was run on words, by whatever picks, is lawful in the words of the text.
pub fn rounds_are_lawful()
    ensures { RoundsAreLawful }
{}

/// So is one whose picks a seed drew.
pub fn drawn_rounds_are_lawful()
    ensures { DrawnRoundsAreLawful }
{}
