//! Where the answer to a step leads.

ghost use Rattle.std.specs.Prelude.{◌≡◌};
ghost use Rattle.slub_core.specs.Setup.{Means};
ghost use Rattle.slub_core.specs.Steps as core;
ghost use Rattle.slub_core.specs.Facts.{setup_of};
ghost use Rattle.slub_core.specs.Values.{values_of};
ghost use Rattle.slub_core.specs.Ways.{turned};
ghost use Rattle.slub_turns.specs.Fits.{StepFits};

use slub_alloc_paths::advance::alloc_advance;
use slub_checked_paths::checked::checked_advance;
use slub_core::guarded::Guarded;
use slub_core::setup::Setup;
use slub_core::spot::Spot;
use slub_core::step::Answer;
use slub_core::worker_local::Local;
use slub_free_paths::discard::discard_advance;
use slub_free_paths::free::free_advance;
use slub_free_paths::move_set::move_set_advance;
use slub_free_paths::put_away::put_away_advance;
use slub_free_paths::put_on_list::put_on_list_advance;
use slub_free_paths::uses::{read_advance, write_advance};
use slub_offline::offline::offline_advance;
use slub_offline::trim::trim_advance;
use slub_trace::reply::Reply;

/// Where the answer to the step of this spot leads, and the reply that the call has by it.
pub fn advance_at(
    setup: &Setup,
    values: &[Guarded],
    local: &mut Local,
    spot: Spot,
    answer: Answer,
) -> Option<Reply>
    requires { StepFits setup.now.step local.old spot }
    ensures { (means : Means) → turned local.new result ≡ core.advance_at (setup_of setup.now means) (values_of values.now) local.old spot answer }
{
    match spot {
        Spot::Between => None,
        Spot::InAlloc(spot) => alloc_advance(setup, local, spot, answer),
        Spot::InPutAway(spot, away) => {
            put_away_advance(setup, values, local, spot, away, answer);
            None
        }
        Spot::InDiscard(spot, discard) => {
            discard_advance(setup, local, spot, discard, answer);
            None
        }
        Spot::InPutOnList(spot, put) => {
            put_on_list_advance(local, spot, put, answer);
            None
        }
        Spot::InFree(spot) => free_advance(setup, local, spot, answer),
        Spot::InMoveSet(spot, set) => move_set_advance(setup, values, local, spot, set, answer),
        Spot::InOffline(spot, sweep) => offline_advance(setup, local, spot, sweep, answer),
        Spot::InTrim(spot) => trim_advance(local, spot, answer),
        Spot::WriteWord => write_advance(setup, local, answer),
        Spot::ReadWord => read_advance(setup, local, answer),
        Spot::InChecked(spot, kind) => {
            checked_advance(local, spot, kind, answer);
            None
        }
    }
}
