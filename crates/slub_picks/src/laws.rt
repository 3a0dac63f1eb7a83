//! What follows from the definitions. None of these does anything.

ghost use Rattle.slub_picks.specs.Laws.{PartsSayTurns};

/// The part that is written of a round's turns says them: with it the round is made again.
pub fn parts_say_turns()
    ensures { PartsSayTurns }
{}
