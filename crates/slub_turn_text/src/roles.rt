//! What a slab in hand is called.

ghost use Rattle.std.specs.Prelude.{◌≡◌, ℕ};
ghost use Rattle.slub_core.specs.Spots.{beside_away, beside_discard, beside_move, beside_put, ready_of, roles};
ghost use Rattle.slub_turn_text.specs.Roles as spec;

use slub_core::spot::{
    AllocSpot, Away, Discard, DiscardSpot, FreeSpot, MoveSet, MoveSetSpot, PutAwaySpot, PutOnList,
    Spot,
};

/// A slab that is ready, where there is one slab or more.
fn ready_of(count: usize) -> &'static [u8]
    ensures { result.now ≡ spec.first_text (ready_of count) }
{
    if count == 0 { b"" } else { b"ready" }
}

/// Of an allocation.
fn alloc_role(spot: AllocSpot, count: usize) -> &'static [u8]
    ensures { result.now ≡ spec.first_text (roles (Spot.InAlloc spot) count) }
{
    match spot {
        AllocSpot::LoadCpu
        | AllocSpot::LoadNext
        | AllocSpot::Pop
        | AllocSpot::Detach
        | AllocSpot::TakeList
        | AllocSpot::FollowFront
        | AllocSpot::LockNode
        | AllocSpot::LockPool
        | AllocSpot::TakeRun
        | AllocSpot::GivePool
        | AllocSpot::GiveDry
        | AllocSpot::LinkNew(_)
        | AllocSpot::Make => b"",
        AllocSpot::LoadTaken | AllocSpot::TakeAll | AllocSpot::MarkFull => b"taken",
        AllocSpot::LoadKept | AllocSpot::FreezeKept => b"kept",
        AllocSpot::LoadPopped | AllocSpot::FreezePopped | AllocSpot::Unlist => b"popped",
        AllocSpot::LoadReady | AllocSpot::LoadAgain | AllocSpot::DetachOther | AllocSpot::Install =>
            b"ready",
        AllocSpot::PopNode | AllocSpot::GiveNode => ready_of(count),
    }
}

/// Of the slab beside, in an allocation.
fn alloc_beside(spot: AllocSpot, count: usize) -> &'static [u8]
    ensures { result.now ≡ spec.second_text (roles (Spot.InAlloc spot) count) }
{
    match spot {
        AllocSpot::LoadPopped => ready_of(count.saturating_sub(1)),
        AllocSpot::Unlist => b"ready",
        _ => b"",
    }
}

/// What a worker keeps beside the slab that it puts away.
fn away_beside(away: Away) -> &'static [u8]
    ensures { result.now ≡ spec.first_text (beside_away away) }
{
    match away {
        Away::ForInstall => b"ready",
        Away::ForSpent | Away::ForSweep(_) => b"",
    }
}

/// Beside those that it moves.
fn move_beside(set: MoveSet) -> &'static [u8]
    ensures { result.now ≡ spec.first_text (beside_move set) }
{
    match set {
        MoveSet::ForFree => b"kept",
        MoveSet::ForOffline(_) => b"",
    }
}

/// Beside one that it discards.
fn discard_beside(discard: Discard) -> &'static [u8]
    ensures { result.now ≡ spec.first_text (beside_discard discard) }
{
    match discard {
        Discard::FromAway(away) => away_beside(away),
        Discard::FromMove(set) => move_beside(set),
        Discard::FromFree | Discard::FromTrim => b"",
    }
}

/// Beside a string that it puts on a list.
fn put_beside(put: PutOnList) -> &'static [u8]
    ensures { result.now ≡ spec.first_text (beside_put put) }
{
    match put {
        PutOnList::OfRest => b"kept",
        PutOnList::OfNode => b"ready",
        PutOnList::OfFree => b"",
    }
}

/// Of a slab that is put away.
fn away_role(spot: PutAwaySpot, away: Away) -> &'static [u8]
    ensures { (count : ℕ) → result.now ≡ spec.first_text (roles (Spot.InPutAway spot away) count) }
{
    match spot {
        PutAwaySpot::WalkChain
        | PutAwaySpot::LockAway
        | PutAwaySpot::LoadAway
        | PutAwaySpot::LinkLast
        | PutAwaySpot::Unfreeze => b"leaving",
        PutAwaySpot::PutNode => b"loose",
        PutAwaySpot::GiveAway => away_beside(away),
    }
}

/// Of the slab beside it.
fn away_second(spot: PutAwaySpot, away: Away) -> &'static [u8]
    ensures { (count : ℕ) → result.now ≡ spec.second_text (roles (Spot.InPutAway spot away) count) }
{
    match spot {
        PutAwaySpot::GiveAway => b"",
        PutAwaySpot::WalkChain
        | PutAwaySpot::LockAway
        | PutAwaySpot::LoadAway
        | PutAwaySpot::LinkLast
        | PutAwaySpot::Unfreeze
        | PutAwaySpot::PutNode => away_beside(away),
    }
}

/// Of a slab that is discarded.
fn discard_role(spot: DiscardSpot, discard: Discard) -> &'static [u8]
    ensures { (count : ℕ) → result.now ≡ spec.first_text (roles (Spot.InDiscard spot discard) count) }
{
    match spot {
        DiscardSpot::Unmake => b"loose",
        DiscardSpot::LockDiscard | DiscardSpot::PutRun | DiscardSpot::GiveDiscard => {
            discard_beside(discard)
        }
    }
}

/// Of the slab beside it.
fn discard_second(spot: DiscardSpot, discard: Discard) -> &'static [u8]
    ensures { (count : ℕ) → result.now ≡ spec.second_text (roles (Spot.InDiscard spot discard) count) }
{
    match spot {
        DiscardSpot::Unmake => discard_beside(discard),
        DiscardSpot::LockDiscard | DiscardSpot::PutRun | DiscardSpot::GiveDiscard => b"",
    }
}

/// Of a slab that is freed into.
fn free_role(spot: FreeSpot) -> &'static [u8]
    ensures { (count : ℕ) → result.now ≡ spec.first_text (roles (Spot.InFree spot) count) }
{
    match spot {
        FreeSpot::LoadCount | FreeSpot::TakeSet => b"kept",
        _ => b"",
    }
}

/// Of a slab that is moved to the node list.
fn move_role(spot: MoveSetSpot, set: MoveSet) -> &'static [u8]
    ensures { (count : ℕ) → result.now ≡ spec.first_text (roles (Spot.InMoveSet spot set) count) }
{
    match spot {
        MoveSetSpot::LoadMoved | MoveSetSpot::ListSlab => b"kept",
        MoveSetSpot::PutTail => b"loose",
        MoveSetSpot::LockMove
        | MoveSetSpot::ChooseFront
        | MoveSetSpot::FollowSet
        | MoveSetSpot::GiveMove => move_beside(set),
    }
}

/// Of the slab beside it.
fn move_second(spot: MoveSetSpot, set: MoveSet) -> &'static [u8]
    ensures { (count : ℕ) → result.now ≡ spec.second_text (roles (Spot.InMoveSet spot set) count) }
{
    match spot {
        MoveSetSpot::LoadMoved | MoveSetSpot::ListSlab | MoveSetSpot::PutTail => move_beside(set),
        MoveSetSpot::LockMove
        | MoveSetSpot::ChooseFront
        | MoveSetSpot::FollowSet
        | MoveSetSpot::GiveMove => b"",
    }
}

/// What the slab is called that a worker with so many slabs in hand works on.
pub(crate) fn first_role(spot: Spot, count: usize) -> &'static [u8]
    ensures { result.now ≡ spec.first_text (roles spot count) }
{
    match spot {
        Spot::InAlloc(spot) => alloc_role(spot, count),
        Spot::InPutAway(spot, away) => away_role(spot, away),
        Spot::InDiscard(spot, discard) => discard_role(spot, discard),
        Spot::InPutOnList(_, put) => put_beside(put),
        Spot::InFree(spot) => free_role(spot),
        Spot::InMoveSet(spot, set) => move_role(spot, set),
        Spot::Between
        | Spot::InOffline(_, _)
        | Spot::InTrim(_)
        | Spot::WriteWord
        | Spot::ReadWord
        | Spot::InChecked(_, _) => b"",
    }
}

/// What the slab beside it is called.
pub(crate) fn second_role(spot: Spot, count: usize) -> &'static [u8]
    ensures { result.now ≡ spec.second_text (roles spot count) }
{
    match spot {
        Spot::InAlloc(spot) => alloc_beside(spot, count),
        Spot::InPutAway(spot, away) => away_second(spot, away),
        Spot::InDiscard(spot, discard) => discard_second(spot, discard),
        Spot::InMoveSet(spot, set) => move_second(spot, set),
        Spot::InFree(_) | Spot::InPutOnList(_, _) => b"",
        Spot::Between
        | Spot::InOffline(_, _)
        | Spot::InTrim(_)
        | Spot::WriteWord
        | Spot::ReadWord
        | Spot::InChecked(_, _) => b"",
    }
}
