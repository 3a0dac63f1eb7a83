//! The laws of rounds by schedule, for the crates above. None of these does anything.

ghost use Rattle.slub_schedule.specs.Laws.{DrawsKeepAll, PicksAreUnfinished, RoundsAreUnique, RoundsEndOrAreSpent, RoundsEndWell, RoundsClose, PlacesAreApart};

/// Before each turn that a seed draws and after the last one the machine is coherent.
pub fn draws_keep_all()
    ensures { DrawsKeepAll }
{}

/// A turn is that of a worker that isn't finished.
pub fn picks_are_unfinished()
    ensures { PicksAreUnfinished }
{}

/// What a seed makes of a machine is one run, want of memory aside, which ends or is spent.
pub fn rounds_are_unique()
    ensures { RoundsAreUnique }
{}

/// Each round ends or has its turns spent.
pub fn rounds_end_or_are_spent()
    ensures { RoundsEndOrAreSpent }
{}

/// Where a round ends nothing is under way, calls, replies and boards are those of a round, and each worker holds what
/// its replies say.
pub fn rounds_end_well()
    ensures { RoundsEndWell }
{}

/// A round that ends closes into a machine at rest, with the board that the replies say.
pub fn rounds_close()
    ensures { RoundsClose }
{}

/// No two places are one word.
pub fn places_are_apart()
    ensures { PlacesAreApart }
{}
