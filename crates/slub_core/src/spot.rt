//! `slab_alloc_node`, `___slab_alloc`, `__slab_free`, `deactivate_slab` and the rest, spot by spot:
//! where a worker stands, one spot for each step that it may have to make next.
//!
//! The last slab in hand is the one that a spot speaks of. Spots that say *at once* call for no
//! step: the worker changes a list, a pool or a checked cache whose lock it has, and goes on.

use crate::call::CallKind;

/// The next step of a worker.
#[derive(Clone, Copy, Debug, PartialEq, Eq)]
pub enum Spot {
    /// In no call.
    Between,
    InAlloc(AllocSpot),
    InPutAway(PutAwaySpot, Away),
    InDiscard(DiscardSpot, Discard),
    InPutOnList(PutOnListSpot, PutOnList),
    InFree(FreeSpot),
    InMoveSet(MoveSetSpot, MoveSet),
    InOffline(OfflineSpot, Sweep),
    InTrim(TrimSpot),
    /// Stores a word of a held object.
    WriteWord,
    /// Loads a word of a held object.
    ReadWord,
    /// Under a checked cache's lock, for a call of this kind.
    InChecked(CheckedSpot, CallKind),
}

/// The allocation of an unchecked cache (`slab_alloc_node`, `___slab_alloc`).
#[derive(Clone, Copy, Debug, PartialEq, Eq)]
pub enum AllocSpot {
    /// Loads the CPU word (`slab_alloc_node`).
    LoadCpu,
    /// Loads the free pointer of the CPU freelist's head (`get_freepointer_safe`).
    LoadNext,
    /// Takes the head off the CPU freelist (`this_cpu_cmpxchg_double` of `slab_alloc_node`).
    Pop,
    /// Takes a slab whose CPU freelist is empty off the CPU (profile: in `___slab_alloc` it stays
    /// current while `get_freelist` takes its objects).
    Detach,
    /// Loads the slab word of that slab (`get_freelist`).
    LoadTaken,
    /// Takes the slab's whole freelist (`get_freelist`).
    TakeAll,
    /// Unfreezes a slab with no free object, which is then on no list (`get_freelist`).
    MarkFull,
    /// Takes the CPU's whole partial list (`slub_percpu_partial` of `___slab_alloc`; that all of it
    /// is taken is profile).
    TakeList,
    /// Loads the link of its front slab (`slub_set_percpu_partial`).
    FollowFront,
    /// Loads the slab word of the front slab (`get_freelist`).
    LoadKept,
    /// Freezes the front slab with its whole freelist (`get_freelist`; frozen only now: profile).
    FreezeKept,
    /// Takes the node lock (`get_partial_node`).
    LockNode,
    /// At once: pops the head of the node list, where another slab is asked for (`get_partial_node`).
    PopNode,
    /// Loads the slab word of the popped slab (`acquire_slab`).
    LoadPopped,
    /// Freezes the first popped slab with its whole freelist (`acquire_slab`).
    FreezePopped,
    /// Unmarks a later popped slab, which goes to the CPU's partial list (profile: `acquire_slab`
    /// freezes it).
    Unlist,
    /// Gives the node lock back (`get_partial_node`).
    GiveNode,
    /// Takes the pool's lock (`alloc_slab_page`).
    LockPool,
    /// At once: takes a run of frames for a new slab (`allocate_slab`).
    TakeRun,
    /// Gives the pool's lock back, with a run in hand (`alloc_slab_page`).
    GivePool,
    /// Gives the pool's lock back, since no run was there (`alloc_slab_page`).
    GiveDry,
    /// Stores the free pointer of the object of this index of the new slab (`allocate_slab`).
    LinkNew(u16),
    /// Makes the run a slab, frozen and all in use (`___slab_alloc`, `new_slab`).
    Make,
    /// Loads the free pointer of the first object in hand (`get_freepointer` of `___slab_alloc`).
    LoadReady,
    /// Loads the CPU word again (`retry_load_slab`).
    LoadAgain,
    /// Takes another slab off the CPU, to be put away (`retry_load_slab`, `deactivate_slab`).
    DetachOther,
    /// Makes the slab in hand current, and its first object is given (`load_freelist`).
    Install,
}

/// What a slab is put away for.
#[derive(Clone, Copy, Debug, PartialEq, Eq)]
pub enum Away {
    /// It was current where a slab in hand is to be installed (`retry_load_slab`).
    ForInstall,
    /// It was to be installed, but the CPU's transaction ids are spent (profile).
    ForSpent,
    /// Its CPU is flushed (`flush_slab`, `__flush_cpu_slab`).
    ForSweep(Sweep),
}

/// Putting away a slab with its chain (`deactivate_slab`).
#[derive(Clone, Copy, Debug, PartialEq, Eq)]
pub enum PutAwaySpot {
    /// Loads the next free pointer of the chain in hand (stage one).
    WalkChain,
    /// Takes the node lock (`n->list_lock` of `deactivate_slab`; always: profile).
    LockAway,
    /// Loads the slab word (stage two).
    LoadAway,
    /// Stores the slab's own head in the last free pointer of the chain (`set_freepointer`).
    LinkLast,
    /// Unfreezes the slab with the chain before its own freelist (`__cmpxchg_double_slab`).
    Unfreeze,
    /// At once: puts it on the node list (`add_partial`).
    PutNode,
    /// Gives the node lock back.
    GiveAway,
}

/// What a slab without an object in use is discarded in.
#[derive(Clone, Copy, Debug, PartialEq, Eq)]
pub enum Discard {
    FromAway(Away),
    FromFree,
    FromMove(MoveSet),
    FromTrim,
}

/// Giving a slab's frames back to the pool, under the node lock (`discard_slab`).
#[derive(Clone, Copy, Debug, PartialEq, Eq)]
pub enum DiscardSpot {
    /// Stores 0 in the slab word: the slab is a run of frames (`free_slab`).
    Unmake,
    /// Takes the pool's lock (`__free_slab`).
    LockDiscard,
    /// At once: puts the run back into the pool (`__free_pages`).
    PutRun,
    /// Gives the pool's lock back.
    GiveDiscard,
}

/// What a string of slabs is put on the CPU's partial list for.
#[derive(Clone, Copy, Debug, PartialEq, Eq)]
pub enum PutOnList {
    /// An allocation took the front of the list: this is the rest (`___slab_alloc`).
    OfRest,
    /// An allocation took more than one slab off the node list (`get_partial_node`).
    OfNode,
    /// A free made a full slab partial (`__slab_free`).
    OfFree,
}

/// Putting a string of slabs before a CPU's partial list (`put_cpu_partial`).
#[derive(Clone, Copy, Debug, PartialEq, Eq)]
pub enum PutOnListSpot {
    /// Loads the list word.
    LoadList,
    /// Loads the link of the slab that the walk has come to.
    WalkString,
    /// Stores the list's front in the last link of the string (`slab->next = oldslab`).
    LinkString,
    /// Makes the string's front the list's (`this_cpu_write(s->cpu_slab->partial, slab)`).
    PushString,
}

/// The free of an object of an unchecked cache (`do_slab_free`, `__slab_free`).
#[derive(Clone, Copy, Debug, PartialEq, Eq)]
pub enum FreeSpot {
    /// Takes the object from the board (profile).
    TakeBoard,
    /// Loads the CPU word (`do_slab_free`).
    LoadOwn,
    /// Stores the CPU freelist's head in the object (`set_freepointer` of `do_slab_free`).
    LinkOwn,
    /// Puts the object on the CPU freelist (`this_cpu_cmpxchg_double` of `do_slab_free`).
    Push,
    /// Loads the slab word (`__slab_free`).
    LoadSlab,
    /// Stores the slab's own head in the object (`set_freepointer` of `__slab_free`).
    LinkSlab,
    /// Puts the object on the slab's freelist (`cmpxchg_double_slab` of `__slab_free`).
    FreeSlab,
    /// Takes the node lock, since this may be the listed slab's last object (`__slab_free`).
    LockFree,
    /// Loads the slab word once more under it: the second look (profile).
    LoadLocked,
    /// Gives the node lock back, since the slab changed (`__slab_free`, after a lost exchange).
    GoBack,
    /// Stores the slab's own head in the object, under the lock.
    LinkLocked,
    /// Puts the object on the slab's freelist, under the lock.
    FreeLocked,
    /// At once: takes the empty slab off the node list, where that has enough (`remove_partial`).
    TakeOff,
    /// Gives the node lock back.
    GiveFree,
    /// Loads the list word (`put_cpu_partial`).
    LoadCount,
    /// Takes the CPU's partial list, which is long enough to be moved (`put_cpu_partial`).
    TakeSet,
}

/// What a set of slabs is moved to the node list for.
#[derive(Clone, Copy, Debug, PartialEq, Eq)]
pub enum MoveSet {
    /// A free puts a slab on a list that is long enough (`put_cpu_partial`).
    ForFree,
    /// Its CPU is flushed (`unfreeze_partials`).
    ForOffline(Sweep),
}

/// Moving a CPU's partial list to the node list, or its empty slabs to the pool (`__unfreeze_partials`).
#[derive(Clone, Copy, Debug, PartialEq, Eq)]
pub enum MoveSetSpot {
    /// Takes the node lock.
    LockMove,
    /// At once: takes the front slab off the string, where one is left.
    ChooseFront,
    /// Loads the link of the string's front.
    FollowSet,
    /// Loads the front slab's word.
    LoadMoved,
    /// Marks the slab as listed (profile: `__unfreeze_partials` unfreezes it).
    ListSlab,
    /// At once: puts it at the tail of the node list (`add_partial`).
    PutTail,
    /// Gives the node lock back.
    GiveMove,
}

/// What all CPUs of a cache, or all caches of a CPU, are put away for.
#[derive(Clone, Copy, Debug, PartialEq, Eq)]
pub enum Sweep {
    Trimming,
    Flushing,
}

/// Putting away what a CPU has of a cache (`__flush_cpu_slab`).
#[derive(Clone, Copy, Debug, PartialEq, Eq)]
pub enum OfflineSpot {
    /// Loads the CPU word.
    LoadCurrent,
    /// Takes the current slab off the CPU (`flush_slab`).
    DetachCurrent,
    /// Takes the CPU's partial list (`unfreeze_partials`).
    TakeCurrent,
}

/// The end of a trim, under the node lock (`__kmem_cache_do_shrink`).
#[derive(Clone, Copy, Debug, PartialEq, Eq)]
pub enum TrimSpot {
    /// Takes the node lock.
    LockTrim,
    /// At once: goes to the next slab of the node list, or puts the list in its new order.
    ScanNode,
    /// Loads the word of the slab at the scan's place.
    LoadScanned,
    /// At once: takes the empty slab off the node list.
    DropScanned,
    /// Gives the node lock back.
    GiveTrim,
}

/// A call under a checked cache's lock (`alloc_single_from_partial`, `free_debug_processing`).
#[derive(Clone, Copy, Debug, PartialEq, Eq)]
pub enum CheckedSpot {
    /// Takes the node lock.
    LockChecked,
    /// At once: makes the call of the checked cache's slabs.
    DoChecked,
    /// Takes the pool's lock, to take a run for a new slab or to put one back.
    LockRun,
    /// At once: takes a run, or puts it back.
    MoveRun,
    /// At once: adds the run as a slab and gives its first object (`alloc_single_from_new_slab`).
    AddSlab,
    /// Gives the pool's lock back.
    GiveRun,
    /// Gives the node lock back.
    GiveChecked,
}
