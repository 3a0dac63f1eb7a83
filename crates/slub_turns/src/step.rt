//! The step that a worker's spot calls for.

ghost use Rattle.std.specs.Prelude.{◌≡◌};
ghost use Rattle.slub_core.specs.Setup.{Means};
ghost use Rattle.slub_core.specs.Steps as core;
ghost use Rattle.slub_core.specs.Facts.{setup_of};
ghost use Rattle.slub_core.specs.Values.{values_of};
ghost use Rattle.slub_turns.specs.Fits.{StepFits};

use slub_alloc_paths::step::alloc_step;
use slub_checked_paths::checked::checked_step;
use slub_core::guarded::Guarded;
use slub_core::ops;
use slub_core::setup::Setup;
use slub_core::spot::Spot;
use slub_core::step::Step;
use slub_core::worker_local::Local;
use slub_free_paths::discard::discard_step;
use slub_free_paths::free::free_step;
use slub_free_paths::move_set::move_set_step;
use slub_free_paths::put_away::put_away_step;
use slub_free_paths::put_on_list::put_on_list_step;
use slub_free_paths::uses::{read_step, write_step};
use slub_offline::offline::offline_step;
use slub_offline::trim::trim_step;

/// The step that this spot calls for.
pub fn step_at(setup: &Setup, values: &[Guarded], local: &Local, spot: Spot) -> Step
    requires { StepFits setup.now.step local.now spot }
    ensures { (means : Means) → result ≡ core.step_at (setup_of setup.now means) (values_of values.now) local.now spot }
{
    match spot {
        Spot::Between => ops::no_step(),
        Spot::InAlloc(spot) => alloc_step(setup, local, spot),
        Spot::InPutAway(spot, _) => put_away_step(setup, values, local, spot),
        Spot::InDiscard(spot, _) => discard_step(local, spot),
        Spot::InPutOnList(spot, _) => put_on_list_step(local, spot),
        Spot::InFree(spot) => free_step(setup, local, spot),
        Spot::InMoveSet(spot, _) => move_set_step(local, spot),
        Spot::InOffline(spot, _) => offline_step(setup, local, spot),
        Spot::InTrim(spot) => trim_step(values, local, spot),
        Spot::WriteWord => write_step(setup, local),
        Spot::ReadWord => read_step(setup, local),
        Spot::InChecked(spot, _) => checked_step(local, spot),
    }
}
