//! Whether the call that a worker is in has a reply.

ghost use Rattle.std.specs.Prelude.{◌≡◌, is_some};
ghost use Rattle.slub_core.specs.Spots as core;

use slub_core::call::CallKind;
use slub_core::spot::{
    AllocSpot, Away, CheckedSpot, Discard, FreeSpot, MoveSet, PutOnList, PutOnListSpot, Spot,
};

/// Of putting a slab away.
fn in_away(away: Away) -> bool
    ensures { result ≡ is_some (core.of_away away) }
{
    match away {
        Away::ForInstall | Away::ForSweep(_) => true,
        Away::ForSpent => false,
    }
}

/// Of moving slabs to the node list.
fn in_move(set: MoveSet) -> bool
    ensures { result ≡ is_some (core.of_move set) }
{
    match set {
        MoveSet::ForFree => false,
        MoveSet::ForOffline(_) => true,
    }
}

/// Of a discard.
fn in_discard(discard: Discard) -> bool
    ensures { result ≡ is_some (core.of_discard discard) }
{
    match discard {
        Discard::FromAway(away) => in_away(away),
        Discard::FromFree => false,
        Discard::FromMove(set) => in_move(set),
        Discard::FromTrim => true,
    }
}

/// Of an allocation.
fn in_alloc(spot: AllocSpot) -> bool
    ensures { result ≡ is_some (core.doing (Spot.InAlloc spot)) }
{
    !matches!(spot, AllocSpot::GiveDry)
}

/// Of putting a string on a list.
fn in_put(spot: PutOnListSpot, put: PutOnList) -> bool
    ensures { result ≡ is_some (core.doing (Spot.InPutOnList spot put)) }
{
    match put {
        PutOnList::OfRest | PutOnList::OfNode => true,
        PutOnList::OfFree => false,
    }
}

/// Of a free.
fn in_free(spot: FreeSpot) -> bool
    ensures { result ≡ is_some (core.doing (Spot.InFree spot)) }
{
    !matches!(
        spot,
        FreeSpot::TakeOff | FreeSpot::GiveFree | FreeSpot::LoadCount | FreeSpot::TakeSet
    )
}

/// Of a call of a checked cache.
fn in_checked(spot: CheckedSpot, kind: CallKind) -> bool
    ensures { result ≡ is_some (core.doing (Spot.InChecked spot kind)) }
{
    match spot {
        CheckedSpot::LockChecked | CheckedSpot::DoChecked => true,
        CheckedSpot::LockRun | CheckedSpot::MoveRun => is_alloc(kind),
        CheckedSpot::AddSlab => true,
        CheckedSpot::GiveRun | CheckedSpot::GiveChecked => false,
    }
}

/// Whether it is an allocation.
fn is_alloc(kind: CallKind) -> bool
    ensures { result ≡ is_some (core.doing (Spot.InChecked CheckedSpot.MoveRun kind)) }
{
    match kind {
        CallKind::Alloc => true,
        CallKind::Free
        | CallKind::Write
        | CallKind::Read
        | CallKind::Poke
        | CallKind::Trim
        | CallKind::Flush => false,
    }
}

/// Whether a worker at this spot is in a call that has no reply yet.
pub(crate) fn has_no_reply(spot: Spot) -> bool
    ensures { result ≡ is_some (core.doing spot) }
{
    match spot {
        Spot::Between => false,
        Spot::InAlloc(spot) => in_alloc(spot),
        Spot::InPutAway(_, away) => in_away(away),
        Spot::InDiscard(_, discard) => in_discard(discard),
        Spot::InPutOnList(spot, put) => in_put(spot, put),
        Spot::InFree(spot) => in_free(spot),
        Spot::InMoveSet(_, set) => in_move(set),
        Spot::InOffline(_, _) | Spot::InTrim(_) | Spot::WriteWord | Spot::ReadWord => true,
        Spot::InChecked(spot, kind) => in_checked(spot, kind),
    }
}
