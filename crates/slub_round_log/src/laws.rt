//! What a log has written over whole turns. None of these does anything.

ghost use Rattle.slub_round_log.specs.Laws.{HappeningsAreOneTurn, RoundsAreWritten, TurnsAreWritten};

/// What comes about in the turn of a worker ends with the turn's only end.
pub fn happenings_are_one_turn()
    ensures { HappeningsAreOneTurn }
{}

/// Of a turn that it hears a log has written its lines, and none is left.
pub fn turns_are_written()
    ensures { TurnsAreWritten }
{}

/// So it has of several turns, one after the other.
pub fn rounds_are_written()
    ensures { RoundsAreWritten }
{}
