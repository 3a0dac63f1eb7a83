//! What holds of machines in a round, for the crates that run one. None of these does anything.

ghost use Rattle.slub_law_opening.specs.BoundLaws.{TurnsKeepBounds, RunsKeepBounds, BoundedCountsFit, RoundsBeginBounded, MachinesMayClose, RoundsCloseIntoLists};

/// From a machine that is coherent and within the bounds the turn of any worker leads to one within the bounds.
pub fn turns_keep_bounds()
    ensures { TurnsKeepBounds }
{}

/// The machine is within the bounds before each turn of a run and after the last one, in whatever order the
/// workers make them.
pub fn runs_keep_bounds()
    ensures { RunsKeepBounds }
{}

/// In such a machine a worker has room for what it counts next.
pub fn bounded_counts_fit()
    ensures { BoundedCountsFit }
{}

/// A round begins within the bounds, where coherent lists were opened for it and its workers have counted
/// nothing.
pub fn rounds_begin_bounded()
    ensures { RoundsBeginBounded }
{}

/// Once every call of the round has its reply, no worker has anything in hand, and what the round is to leave
/// alone is as it was: the machine closes.
pub fn machines_may_close()
    ensures { MachinesMayClose }
{}

/// A round of several workers in which every call has its reply closes into coherent lists, with which the next
/// round may begin.
pub fn rounds_close_into_lists()
    ensures { RoundsCloseIntoLists }
{}
