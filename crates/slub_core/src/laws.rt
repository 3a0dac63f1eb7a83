//! The law of the step machine, for the crates that run it. None of the functions does anything.

ghost use Rattle.slub_core.specs.Law.{TurnsKeepAll, RunsKeepAll, RoundsKeepAll, RoundsEnd};

/// From a machine that is coherent since an opening the turn of any worker leads to one that is coherent since
/// the same opening, whatever the other workers are at.
pub fn turns_keep_all()
    ensures { TurnsKeepAll }
{}

/// The machine is coherent before each turn of a run and after the last one, in whatever order the workers make them.
pub fn runs_keep_all()
    ensures { RunsKeepAll }
{}

/// A round begins with such a machine: where the machine in words is at rest, and its workers hold nothing and have
/// calls that fit it, it is coherent before each turn and after the last one.
pub fn rounds_keep_all()
    ensures { RoundsKeepAll }
{}

/// Once every call of such a round has its reply, each reply has its cause, and board and replies agree: what a
/// reader understands without the steps (`IsRound`).
pub fn rounds_end()
    ensures { RoundsEnd }
{}
