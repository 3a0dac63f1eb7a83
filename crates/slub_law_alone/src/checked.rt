//! What holds of a worker alone in calls of checked caches. None of these does anything.
//!
//! The whole call is made under the node lock of the cache: it is taken by the first turn, at which the slabs are
//! changed at once, and given back by the last. No transaction id grows, and the words of the frames stay as they
//! were, since the bytes of a checked object stand in its slab.
//!
//! | Act on a checked cache | Law | Turns |
//! |---|---|---|
//! | write, read | `checked_writes_are_stores`, `checked_reads_are_loads` | 2 |
//! | poke: written, outside of the slot, or its slab is gone | `pokes_are_stores` | 2 |
//! | free of a damaged object, which stays held | `damaged_frees_are_told` | 2 |
//! | free, the slab stays | `checked_frees_are_taken` | 2 |
//! | free, the slab is spare and its run is put back | `spare_slabs_are_put_back` | 4 |
//! | allocation, a listed slab has an object to give | `checked_objects_are_given` | 2 |
//! | allocation that makes a new slab of a run of frames | `checked_slabs_are_made` | 4 |
//! | allocation that finds no object and no run of frames | `lack_of_checked_frames_is_told` | 4 |
//!
//! The frees begin wherever a worker is ready: of an object on the board too, once the worker has taken it from there.
//! The lists keep what a worker freed in this round apart from what it knows in words: a poke of such an object asks
//! that both know the same.

ghost use Rattle.slub_law_alone.specs.CheckedAlone.{CheckedFreesAreTaken, CheckedObjectsAreGiven, CheckedReadsAreLoads, CheckedSlabsAreMade, CheckedWritesAreStores, DamagedFreesAreTold, LackOfCheckedFramesIsTold, PokesAreStores, SpareSlabsArePutBack};

/// A write of a word of an object of a checked cache takes two turns, under the node lock, and is that of the lists.
pub fn checked_writes_are_stores()
    ensures { CheckedWritesAreStores }
{}

/// So is a read.
pub fn checked_reads_are_loads()
    ensures { CheckedReadsAreLoads }
{}

/// A poke that takes a step takes two turns, under the node lock, and is that of the lists.
pub fn pokes_are_stores()
    ensures { PokesAreStores }
{}

/// A free of an object of a checked cache that is found damaged takes two turns, and is that of the lists: the worker
/// holds the object still.
pub fn damaged_frees_are_told()
    ensures { DamagedFreesAreTold }
{}

/// A free of a whole object of a checked cache, whose slab stays, takes two turns, and is that of the lists.
pub fn checked_frees_are_taken()
    ensures { CheckedFreesAreTaken }
{}

/// An allocation from a checked cache, a listed slab of which has an object to give, takes two turns, and is that of
/// the lists: this object is given.
pub fn checked_objects_are_given()
    ensures { CheckedObjectsAreGiven }
{}

/// An allocation from a checked cache that finds neither an object nor a run of frames is told so in four turns, as on
/// the lists.
pub fn lack_of_checked_frames_is_told()
    ensures { LackOfCheckedFramesIsTold }
{}

/// A free of a whole object of a checked cache, with which its slab is spare, takes four turns: the slab's run is put back
/// under the pool's lock, as on the lists.
pub fn spare_slabs_are_put_back()
    ensures { SpareSlabsArePutBack }
{}

/// An allocation from a checked cache that finds no object but a run of frames makes a new slab in four turns, and is that
/// of the lists: the slab's first object is given.
pub fn checked_slabs_are_made()
    ensures { CheckedSlabsAreMade }
{}
