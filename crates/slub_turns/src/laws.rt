//! When the workers of a machine may make their turns, and what a round closes into. None of these does anything.

ghost use Rattle.slub_turns.specs.Happenings.{TurnsAreTold};
ghost use Rattle.slub_turns.specs.Laws.{RoundsBeginReady, TurnsKeepReady, PicksFit, RoundsBySeedClose};

use slub_law_opening::bound_laws::{
    bounded_counts_fit, rounds_begin_bounded, rounds_close_into_lists, turns_keep_bounds,
};

/// Coherent lists open into words with which workers may make their turns.
pub fn rounds_begin_ready()
    ensures { RoundsBeginReady }
{
    rounds_begin_bounded();
}

/// After the turn of any worker they may make the next.
pub fn turns_keep_ready()
    ensures { TurnsKeepReady }
{
    turns_keep_bounds();
}

/// The turn of each worker is one that the bodies of the paths can make.
pub fn picks_fit()
    ensures { PicksFit }
{
    bounded_counts_fit();
}

/// A round by seed that ends closes into coherent lists, with which the next round may begin.
pub fn rounds_by_seed_close()
    ensures { RoundsBySeedClose }
{
    rounds_close_into_lists();
}

/// What a watcher is told of a turn is the turn: its step, and what it leaves.
pub fn turns_are_told()
    ensures { TurnsAreTold }
{}
