//! The names of spots, and the functions of `mm/slub.c` that they answer to.

ghost use Rattle.std.specs.Prelude.{◌≡◌};
ghost use Rattle.slub_turn_text.specs.Spots as names;
ghost use Rattle.slub_turn_text.specs.Functions as functions;

use slub_core::call::CallKind;
use slub_core::spot::{
    AllocSpot, CheckedSpot, DiscardSpot, FreeSpot, MoveSetSpot, OfflineSpot, PutAwaySpot,
    PutOnListSpot, Spot, TrimSpot,
};

fn alloc_name(spot: AllocSpot) -> &'static [u8]
    ensures { result.now ≡ names.alloc_name spot }
{
    match spot {
        AllocSpot::LoadCpu => b"LoadCpu",
        AllocSpot::LoadNext => b"LoadNext",
        AllocSpot::Pop => b"Pop",
        AllocSpot::Detach => b"Detach",
        AllocSpot::LoadTaken => b"LoadTaken",
        AllocSpot::TakeAll => b"TakeAll",
        AllocSpot::MarkFull => b"MarkFull",
        AllocSpot::TakeList => b"TakeList",
        AllocSpot::FollowFront => b"FollowFront",
        AllocSpot::LoadKept => b"LoadKept",
        AllocSpot::FreezeKept => b"FreezeKept",
        AllocSpot::LockNode => b"LockNode",
        AllocSpot::PopNode => b"PopNode",
        AllocSpot::LoadPopped => b"LoadPopped",
        AllocSpot::FreezePopped => b"FreezePopped",
        AllocSpot::Unlist => b"Unlist",
        AllocSpot::GiveNode => b"GiveNode",
        AllocSpot::LockPool => b"LockPool",
        AllocSpot::TakeRun => b"TakeRun",
        AllocSpot::GivePool => b"GivePool",
        AllocSpot::GiveDry => b"GiveDry",
        AllocSpot::LinkNew(_) => b"LinkNew",
        AllocSpot::Make => b"Make",
        AllocSpot::LoadReady => b"LoadReady",
        AllocSpot::LoadAgain => b"LoadAgain",
        AllocSpot::DetachOther => b"DetachOther",
        AllocSpot::Install => b"Install",
    }
}

fn away_name(spot: PutAwaySpot) -> &'static [u8]
    ensures { result.now ≡ names.away_name spot }
{
    match spot {
        PutAwaySpot::WalkChain => b"WalkChain",
        PutAwaySpot::LockAway => b"LockAway",
        PutAwaySpot::LoadAway => b"LoadAway",
        PutAwaySpot::LinkLast => b"LinkLast",
        PutAwaySpot::Unfreeze => b"Unfreeze",
        PutAwaySpot::PutNode => b"PutNode",
        PutAwaySpot::GiveAway => b"GiveAway",
    }
}

fn discard_name(spot: DiscardSpot) -> &'static [u8]
    ensures { result.now ≡ names.discard_name spot }
{
    match spot {
        DiscardSpot::Unmake => b"Unmake",
        DiscardSpot::LockDiscard => b"LockDiscard",
        DiscardSpot::PutRun => b"PutRun",
        DiscardSpot::GiveDiscard => b"GiveDiscard",
    }
}

fn put_name(spot: PutOnListSpot) -> &'static [u8]
    ensures { result.now ≡ names.put_name spot }
{
    match spot {
        PutOnListSpot::LoadList => b"LoadList",
        PutOnListSpot::WalkString => b"WalkString",
        PutOnListSpot::LinkString => b"LinkString",
        PutOnListSpot::PushString => b"PushString",
    }
}

fn free_name(spot: FreeSpot) -> &'static [u8]
    ensures { result.now ≡ names.free_name spot }
{
    match spot {
        FreeSpot::TakeBoard => b"TakeBoard",
        FreeSpot::LoadOwn => b"LoadOwn",
        FreeSpot::LinkOwn => b"LinkOwn",
        FreeSpot::Push => b"Push",
        FreeSpot::LoadSlab => b"LoadSlab",
        FreeSpot::LinkSlab => b"LinkSlab",
        FreeSpot::FreeSlab => b"FreeSlab",
        FreeSpot::LockFree => b"LockFree",
        FreeSpot::LoadLocked => b"LoadLocked",
        FreeSpot::GoBack => b"GoBack",
        FreeSpot::LinkLocked => b"LinkLocked",
        FreeSpot::FreeLocked => b"FreeLocked",
        FreeSpot::TakeOff => b"TakeOff",
        FreeSpot::GiveFree => b"GiveFree",
        FreeSpot::LoadCount => b"LoadCount",
        FreeSpot::TakeSet => b"TakeSet",
    }
}

fn move_name(spot: MoveSetSpot) -> &'static [u8]
    ensures { result.now ≡ names.move_name spot }
{
    match spot {
        MoveSetSpot::LockMove => b"LockMove",
        MoveSetSpot::ChooseFront => b"ChooseFront",
        MoveSetSpot::FollowSet => b"FollowSet",
        MoveSetSpot::LoadMoved => b"LoadMoved",
        MoveSetSpot::ListSlab => b"ListSlab",
        MoveSetSpot::PutTail => b"PutTail",
        MoveSetSpot::GiveMove => b"GiveMove",
    }
}

fn offline_name(spot: OfflineSpot) -> &'static [u8]
    ensures { result.now ≡ names.offline_name spot }
{
    match spot {
        OfflineSpot::LoadCurrent => b"LoadCurrent",
        OfflineSpot::DetachCurrent => b"DetachCurrent",
        OfflineSpot::TakeCurrent => b"TakeCurrent",
    }
}

fn trim_name(spot: TrimSpot) -> &'static [u8]
    ensures { result.now ≡ names.trim_name spot }
{
    match spot {
        TrimSpot::LockTrim => b"LockTrim",
        TrimSpot::ScanNode => b"ScanNode",
        TrimSpot::LoadScanned => b"LoadScanned",
        TrimSpot::DropScanned => b"DropScanned",
        TrimSpot::GiveTrim => b"GiveTrim",
    }
}

fn checked_name(spot: CheckedSpot) -> &'static [u8]
    ensures { result.now ≡ names.checked_name spot }
{
    match spot {
        CheckedSpot::LockChecked => b"LockChecked",
        CheckedSpot::DoChecked => b"DoChecked",
        CheckedSpot::LockRun => b"LockRun",
        CheckedSpot::MoveRun => b"MoveRun",
        CheckedSpot::AddSlab => b"AddSlab",
        CheckedSpot::GiveRun => b"GiveRun",
        CheckedSpot::GiveChecked => b"GiveChecked",
    }
}

/// The name of a spot alone.
#[tactic(auto, unfolding(crate::specs::Spots::spot_name))]
pub(crate) fn spot_name(spot: Spot) -> &'static [u8]
    ensures { result.now ≡ names.spot_name spot }
{
    match spot {
        Spot::Between => b"Between",
        Spot::InAlloc(spot) => alloc_name(spot),
        Spot::InPutAway(spot, _) => away_name(spot),
        Spot::InDiscard(spot, _) => discard_name(spot),
        Spot::InPutOnList(spot, _) => put_name(spot),
        Spot::InFree(spot) => free_name(spot),
        Spot::InMoveSet(spot, _) => move_name(spot),
        Spot::InOffline(spot, _) => offline_name(spot),
        Spot::InTrim(spot) => trim_name(spot),
        Spot::WriteWord => b"WriteWord",
        Spot::ReadWord => b"ReadWord",
        Spot::InChecked(spot, _) => checked_name(spot),
    }
}

fn alloc_function(spot: AllocSpot) -> &'static [u8]
    ensures { result.now ≡ functions.alloc_function spot }
{
    match spot {
        AllocSpot::LoadCpu => b"slab_alloc_node",
        AllocSpot::LoadNext => b"get_freepointer_safe",
        AllocSpot::Pop => b"slab_alloc_node",
        AllocSpot::Detach => b"___slab_alloc",
        AllocSpot::LoadTaken => b"get_freelist",
        AllocSpot::TakeAll => b"get_freelist",
        AllocSpot::MarkFull => b"get_freelist",
        AllocSpot::TakeList => b"___slab_alloc",
        AllocSpot::FollowFront => b"___slab_alloc",
        AllocSpot::LoadKept => b"get_freelist",
        AllocSpot::FreezeKept => b"get_freelist",
        AllocSpot::LockNode => b"get_partial_node",
        AllocSpot::PopNode => b"get_partial_node",
        AllocSpot::LoadPopped => b"acquire_slab",
        AllocSpot::FreezePopped => b"acquire_slab",
        AllocSpot::Unlist => b"acquire_slab",
        AllocSpot::GiveNode => b"get_partial_node",
        AllocSpot::LockPool => b"alloc_slab_page",
        AllocSpot::TakeRun => b"allocate_slab",
        AllocSpot::GivePool => b"alloc_slab_page",
        AllocSpot::GiveDry => b"alloc_slab_page",
        AllocSpot::LinkNew(_) => b"allocate_slab",
        AllocSpot::Make => b"new_slab",
        AllocSpot::LoadReady => b"get_freepointer",
        AllocSpot::LoadAgain => b"___slab_alloc",
        AllocSpot::DetachOther => b"deactivate_slab",
        AllocSpot::Install => b"___slab_alloc",
    }
}

fn away_function(spot: PutAwaySpot) -> &'static [u8]
    ensures { result.now ≡ functions.away_function spot }
{
    match spot {
        PutAwaySpot::WalkChain => b"deactivate_slab",
        PutAwaySpot::LockAway => b"deactivate_slab",
        PutAwaySpot::LoadAway => b"deactivate_slab",
        PutAwaySpot::LinkLast => b"set_freepointer",
        PutAwaySpot::Unfreeze => b"deactivate_slab",
        PutAwaySpot::PutNode => b"add_partial",
        PutAwaySpot::GiveAway => b"deactivate_slab",
    }
}

fn discard_function(spot: DiscardSpot) -> &'static [u8]
    ensures { result.now ≡ functions.discard_function spot }
{
    match spot {
        DiscardSpot::Unmake => b"free_slab",
        DiscardSpot::LockDiscard => b"__free_slab",
        DiscardSpot::PutRun => b"__free_pages",
        DiscardSpot::GiveDiscard => b"__free_slab",
    }
}

fn put_function(spot: PutOnListSpot) -> &'static [u8]
    ensures { result.now ≡ functions.put_function spot }
{
    match spot {
        PutOnListSpot::LoadList => b"put_cpu_partial",
        PutOnListSpot::WalkString => b"put_cpu_partial",
        PutOnListSpot::LinkString => b"put_cpu_partial",
        PutOnListSpot::PushString => b"put_cpu_partial",
    }
}

fn free_function(spot: FreeSpot) -> &'static [u8]
    ensures { result.now ≡ functions.free_function spot }
{
    match spot {
        FreeSpot::TakeBoard => b"profile",
        FreeSpot::LoadOwn => b"do_slab_free",
        FreeSpot::LinkOwn => b"set_freepointer",
        FreeSpot::Push => b"do_slab_free",
        FreeSpot::LoadSlab => b"__slab_free",
        FreeSpot::LinkSlab => b"set_freepointer",
        FreeSpot::FreeSlab => b"__slab_free",
        FreeSpot::LockFree => b"__slab_free",
        FreeSpot::LoadLocked => b"__slab_free",
        FreeSpot::GoBack => b"__slab_free",
        FreeSpot::LinkLocked => b"set_freepointer",
        FreeSpot::FreeLocked => b"__slab_free",
        FreeSpot::TakeOff => b"remove_partial",
        FreeSpot::GiveFree => b"__slab_free",
        FreeSpot::LoadCount => b"put_cpu_partial",
        FreeSpot::TakeSet => b"put_cpu_partial",
    }
}

fn move_function(spot: MoveSetSpot) -> &'static [u8]
    ensures { result.now ≡ functions.move_function spot }
{
    match spot {
        MoveSetSpot::LockMove => b"__unfreeze_partials",
        MoveSetSpot::ChooseFront => b"__unfreeze_partials",
        MoveSetSpot::FollowSet => b"__unfreeze_partials",
        MoveSetSpot::LoadMoved => b"__unfreeze_partials",
        MoveSetSpot::ListSlab => b"__unfreeze_partials",
        MoveSetSpot::PutTail => b"add_partial",
        MoveSetSpot::GiveMove => b"__unfreeze_partials",
    }
}

fn offline_function(spot: OfflineSpot) -> &'static [u8]
    ensures { result.now ≡ functions.offline_function spot }
{
    match spot {
        OfflineSpot::LoadCurrent => b"__flush_cpu_slab",
        OfflineSpot::DetachCurrent => b"flush_slab",
        OfflineSpot::TakeCurrent => b"unfreeze_partials",
    }
}

fn trim_function(spot: TrimSpot) -> &'static [u8]
    ensures { result.now ≡ functions.trim_function spot }
{
    match spot {
        TrimSpot::LockTrim => b"__kmem_cache_do_shrink",
        TrimSpot::ScanNode => b"__kmem_cache_do_shrink",
        TrimSpot::LoadScanned => b"__kmem_cache_do_shrink",
        TrimSpot::DropScanned => b"__kmem_cache_do_shrink",
        TrimSpot::GiveTrim => b"__kmem_cache_do_shrink",
    }
}

/// Of the call itself.
fn call_function(kind: CallKind) -> &'static [u8]
    ensures { result.now ≡ functions.call_function kind }
{
    match kind {
        CallKind::Alloc => b"alloc_single_from_partial",
        CallKind::Free => b"free_debug_processing",
        CallKind::Write => b"profile",
        CallKind::Read => b"profile",
        CallKind::Poke => b"profile",
        CallKind::Trim => b"profile",
        CallKind::Flush => b"profile",
    }
}

/// Of the pool's lock.
fn run_lock_function(kind: CallKind) -> &'static [u8]
    ensures { result.now ≡ functions.run_lock_function kind }
{
    match kind {
        CallKind::Alloc => b"alloc_slab_page",
        CallKind::Free => b"__free_slab",
        CallKind::Write => b"__free_slab",
        CallKind::Read => b"__free_slab",
        CallKind::Poke => b"__free_slab",
        CallKind::Trim => b"__free_slab",
        CallKind::Flush => b"__free_slab",
    }
}

/// Of the run of frames.
fn run_function(kind: CallKind) -> &'static [u8]
    ensures { result.now ≡ functions.run_function kind }
{
    match kind {
        CallKind::Alloc => b"allocate_slab",
        CallKind::Free => b"__free_pages",
        CallKind::Write => b"__free_pages",
        CallKind::Read => b"__free_pages",
        CallKind::Poke => b"__free_pages",
        CallKind::Trim => b"__free_pages",
        CallKind::Flush => b"__free_pages",
    }
}

fn checked_function(spot: CheckedSpot, kind: CallKind) -> &'static [u8]
    ensures { result.now ≡ functions.checked_function spot kind }
{
    match spot {
        CheckedSpot::LockChecked => call_function(kind),
        CheckedSpot::DoChecked => call_function(kind),
        CheckedSpot::LockRun => run_lock_function(kind),
        CheckedSpot::MoveRun => run_function(kind),
        CheckedSpot::AddSlab => b"alloc_single_from_new_slab",
        CheckedSpot::GiveRun => run_lock_function(kind),
        CheckedSpot::GiveChecked => call_function(kind),
    }
}

/// The function of `mm/slub.c` that makes the step of a spot.
#[tactic(auto, unfolding(crate::specs::Functions::function_of))]
pub(crate) fn function_of(spot: Spot) -> &'static [u8]
    ensures { result.now ≡ functions.function_of spot }
{
    match spot {
        Spot::Between | Spot::WriteWord | Spot::ReadWord => b"profile",
        Spot::InAlloc(spot) => alloc_function(spot),
        Spot::InPutAway(spot, _) => away_function(spot),
        Spot::InDiscard(spot, _) => discard_function(spot),
        Spot::InPutOnList(spot, _) => put_function(spot),
        Spot::InFree(spot) => free_function(spot),
        Spot::InMoveSet(spot, _) => move_function(spot),
        Spot::InOffline(spot, _) => offline_function(spot),
        Spot::InTrim(spot) => trim_function(spot),
        Spot::InChecked(spot, kind) => checked_function(spot, kind),
    }
}
