//! What is done at once, under a lock that the worker has.

ghost use Rattle.std.specs.Prelude.{◌≡◌, ◌||◌};
ghost use Rattle.slub_core.specs.Setup.{Means};
ghost use Rattle.slub_core.specs.Local.{noted};
ghost use Rattle.slub_core.specs.Steps as core;
ghost use Rattle.slub_core.specs.Facts.{setup_of};
ghost use Rattle.slub_core.specs.Values.{values_of, rooms_of};
ghost use Rattle.slub_core.specs.Ways.{changed};
ghost use Rattle.slub_checked_paths.specs.Slabs as slabs;
ghost use Rattle.slub_turns.specs.Fits.{AtOnceFits};
ghost use Rattle.slub_turns.specs.Spots as spots;
ghost use Rattle.slub_turns.specs.SettledFits.{SettledFits};

use slub_alloc_paths::at_once::alloc_at_once;
use slub_checked_paths::checked::checked_at_once;
use slub_core::guarded::Guarded;
use slub_core::setup::Setup;
use slub_core::spot::{
    AllocSpot, CheckedSpot, DiscardSpot, FreeSpot, MoveSetSpot, PutAwaySpot, Spot, TrimSpot,
};
use slub_core::worker_local::Local;
use slub_free_paths::discard::discard_at_once;
use slub_free_paths::free::free_at_once;
use slub_free_paths::move_set::move_set_at_once;
use slub_free_paths::put_away::put_away_at_once;
use slub_offline::trim::trim_at_once;
use slub_trace::reply::Reply;

/// What is done at once at this spot, and the reply that the call has by it. The reply NoMemory tells that memory was
/// refused.
pub fn at_once(
    setup: &Setup,
    values: &mut [Guarded],
    local: &mut Local,
    spot: Spot,
) -> Option<Reply>
    requires { AtOnceFits values.old local.old spot }
    ensures change { (means : Means) → changed values.new local.new result ≡ core.at_once (setup_of setup.now means) (slabs.is_refused result) (values_of values.old) local.old spot }
    ensures rooms { rooms_of values.new ≡ rooms_of values.old }
{
    match spot {
        Spot::InAlloc(spot) => alloc_at_once(setup, values, local, spot),
        Spot::InPutAway(spot, away) => {
            put_away_at_once(values, local, spot, away);
            None
        }
        Spot::InDiscard(spot, discard) => {
            discard_at_once(values, local, spot, discard);
            None
        }
        Spot::InFree(spot) => {
            free_at_once(setup, values, local, spot);
            None
        }
        Spot::InMoveSet(spot, set) => {
            move_set_at_once(values, local, spot, set);
            None
        }
        Spot::InTrim(spot) => {
            trim_at_once(setup, values, local, spot);
            None
        }
        Spot::InChecked(spot, kind) => checked_at_once(setup, values, local, spot, kind),
        Spot::Between
        | Spot::InPutOnList(_, _)
        | Spot::InOffline(_, _)
        | Spot::WriteWord
        | Spot::ReadWord => None,
    }
}

/// A reply tells that memory was refused.
pub fn is_refused(reply: Option<Reply>) -> bool
    ensures { result ≡ slabs.is_refused reply }
{
    match reply {
        Some(Reply::NoMemory) => true,
        _ => false,
    }
}

/// One of two replies tells so.
pub fn was_refused(first: Option<Reply>, second: Option<Reply>) -> bool
    ensures { result ≡ (slabs.is_refused first || slabs.is_refused second) }
{
    is_refused(first) || is_refused(second)
}

/// What is done at once where the worker stands.
fn change_here(setup: &Setup, values: &mut [Guarded], local: &mut Local) -> Option<Reply>
    requires { AtOnceFits values.old local.old local.old.spot }
    ensures change { (means : Means) → changed values.new local.new result ≡ core.at_once (setup_of setup.now means) (slabs.is_refused result) (values_of values.old) local.old local.old.spot }
    ensures rooms { rooms_of values.new ≡ rooms_of values.old }
{
    let spot = local.spot();
    at_once(setup, values, local, spot)
}

/// Whether something is done at once at this spot, which then calls for no step.
#[inline(always)]
pub fn is_at_once(spot: Spot) -> bool
    ensures { result ≡ spots.is_at_once spot }
{
    match spot {
        Spot::InAlloc(AllocSpot::PopNode | AllocSpot::TakeRun) => true,
        Spot::InPutAway(PutAwaySpot::PutNode, _) => true,
        Spot::InDiscard(DiscardSpot::PutRun, _) => true,
        Spot::InFree(FreeSpot::TakeOff) => true,
        Spot::InMoveSet(MoveSetSpot::ChooseFront | MoveSetSpot::PutTail, _) => true,
        Spot::InTrim(TrimSpot::ScanNode | TrimSpot::DropScanned) => true,
        Spot::InChecked(CheckedSpot::DoChecked, _) => true,
        Spot::InChecked(CheckedSpot::MoveRun, _) => true,
        Spot::InChecked(CheckedSpot::AddSlab, _) => true,
        _ => false,
    }
}

/// The call has this reply, if it is one; and what is done at once after that is done, up to a spot that calls for a
/// step, which is twice at most. Whether memory was refused in it.
#[inline(always)]
pub fn settle(
    setup: &Setup,
    values: &mut [Guarded],
    local: &mut Local,
    reply: Option<Reply>,
) -> bool
    requires { (means : Means) × SettledFits (setup_of setup.now means) values.old (changed values.old local.old reply) }
    ensures change { (means : Means) → let c = core.settled (setup_of setup.now means) result (changed values.old local.old reply) in (values_of values.new ≡ c.value) × (local.new ≡ noted c.local c.reply) }
    ensures rooms { rooms_of values.new ≡ rooms_of values.old }
{
    local.noted(reply);
    if !is_at_once(local.spot()) {
        return false;
    }
    let first = change_here(setup, values, local);
    local.noted(first);
    if !is_at_once(local.spot()) {
        return is_refused(first);
    }
    let second = change_here(setup, values, local);
    local.noted(second);
    was_refused(first, second)
}
