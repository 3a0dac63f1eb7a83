//! What holds of a worker that makes its turns alone. None of these does anything.
//!
//! A round begins with a machine at rest in the lists that it was opened from
//! (`rounds_begin_at_rest`). Of each act on an unchecked cache: the law, how many turns it takes,
//! and how many steps the transaction id of the CPU's word grows by. Those that don't stand here
//! stand in the modules of their acts: `node`, `spent`, `discards`, `sets`, `away`.
//!
//! | Act on an unchecked cache | Law | Turns | Id |
//! |---|---|---|---|
//! | allocation from the CPU's freelist | `fast_allocations_are_pops` | 3 | 1 |
//! | allocation, the current slab's own freelist taken | `own_freelists_are_taken` | 7 | 2 |
//! | allocation, the partial list's only slab taken | `only_partial_slabs_are_taken` | 7 | 1 |
//! | the same, the first of several | `first_partial_slabs_are_taken` | 10 | 1 |
//! | allocation, the node list's first slab taken | `node_slabs_are_taken` | 9, 5 a slab more | 1 |
//! | allocation that makes a new slab | `new_slabs_are_made` | 10, 1 an object | 1 |
//! | allocation, no slab and no run of frames | `lack_of_frames_is_told` | 6 | 0 |
//! | allocation, current slab with nothing left | `spent_slabs_are_taken_off` | 3 more | 1 more |
//! | free, the slab is current on the CPU | `fast_frees_are_pushes` | 3 | 1 |
//! | free into a slab that stays where it is | `frees_in_place_are_puts` | 4 | 0 |
//! | free of a listed slab's last, list short | `last_of_listed_are_kept` | 7 | 0 |
//! | the same, list long: the slab is discarded | `last_of_listed_are_discarded` | 10 | 0 |
//! | free into a full slab, partial list with room | `full_slabs_are_listed` | 8 | 0 |
//! | the same, the partial list full: it is moved | `full_lists_are_moved` | by its slabs | 0 |
//! | free of a number that names nothing to free | `unheld_frees_find_nothing` | 1 | 0 |
//! | write, read | `writes_are_stores`, `reads_are_loads` | 1 | 0 |
//! | flush of a CPU | `flushes_are_those_of_lists` | by its slabs | 1 a current slab |
//! | trim of a cache | `trims_are_those_of_lists` | by its slabs | 1 a current slab |
//!
//! The allocations from a partial list, a node list or a new slab find no current slab; where there
//! is one with nothing left it is taken off first. Trims and flushes go by pieces: a current slab
//! is put away (`current_slabs_are_put_away`), a CPU's partial list is moved
//! (`partial_lists_are_moved`). Between two of them the machine rests but for the worker
//! (`RestsBut` of `specs/Away.antt`).
//!
//! A free that finds its object on the board, of a checked cache too, takes it from there in one
//! turn, and is then the free of an object that the worker holds (`board_objects_are_taken`,
//! `board_frees_are_frees`). The machine in between is not at rest, since no reply gave the worker
//! this object; it is one that is ready (`IsReady` of `specs/Ready.antt`), as is each machine at
//! rest (`rests_are_ready`), and the laws on frees begin with such a machine.
//!
//! The id may be spent by the last change of an allocation, and by none before it. Where an
//! allocation would spend it before, it takes the current slab off its CPU first
//! (`current_slabs_are_detached`). The turns are picks that refuse no memory (`own_pick`), and
//! those of one call (`busy`).

ghost use Rattle.slub_law_alone.specs.Laws.{FastAllocationsArePops, FastFreesArePushes, FirstPartialSlabsAreTaken, FreesInPlaceArePuts, FullSlabsAreListed, LackOfFramesIsTold, LastOfListedAreKept, NewSlabsAreMade, OnlyPartialSlabsAreTaken, OwnFreelistsAreTaken, ReadsAreLoads, RoundsBeginAtRest, UnheldFreesFindNothing, WritesAreStores};

/// Before the first turn of a round the machine rests in the lists that it was opened from.
pub fn rounds_begin_at_rest()
    ensures { RoundsBeginAtRest }
{}

/// An allocation that finds an object in its CPU's freelist takes three turns, and is that of the lists.
pub fn fast_allocations_are_pops()
    ensures { FastAllocationsArePops }
{}

/// An allocation that takes the own freelist of its CPU's current slab takes seven turns, and is that of the
/// lists.
pub fn own_freelists_are_taken()
    ensures { OwnFreelistsAreTaken }
{}

/// An allocation that takes the only slab of its CPU's partial list, where no slab is current, takes seven turns,
/// and is that of the lists.
pub fn only_partial_slabs_are_taken()
    ensures { OnlyPartialSlabsAreTaken }
{}

/// An allocation that takes the first of several slabs of its CPU's partial list takes ten turns, and is that of
/// the lists.
pub fn first_partial_slabs_are_taken()
    ensures { FirstPartialSlabsAreTaken }
{}

/// An allocation that finds no slab but a run of frames makes a new slab in ten turns and one for each object of it,
/// and is that of the lists.
pub fn new_slabs_are_made()
    ensures { NewSlabsAreMade }
{}

/// An allocation that finds no slab and no run of frames is told so in six turns, as on the lists.
pub fn lack_of_frames_is_told()
    ensures { LackOfFramesIsTold }
{}

/// A free of an object whose slab is current on the CPU takes three turns, and is that of the lists.
pub fn fast_frees_are_pushes()
    ensures { FastFreesArePushes }
{}

/// A free of an object of a slab that is not current on the CPU and stays where it is takes four turns, and is
/// that of the lists.
pub fn frees_in_place_are_puts()
    ensures { FreesInPlaceArePuts }
{}

/// A free of the last object in use of a slab of the node list, where that list is short, takes seven turns under
/// the node lock, and is that of the lists.
pub fn last_of_listed_are_kept()
    ensures { LastOfListedAreKept }
{}

/// A free of an object of a full slab, where the CPU's partial list has room, takes eight turns, and is that of
/// the lists.
pub fn full_slabs_are_listed()
    ensures { FullSlabsAreListed }
{}

/// A free of a number that names nothing which the worker may free takes one turn, and is that of the lists.
pub fn unheld_frees_find_nothing()
    ensures { UnheldFreesFindNothing }
{}

/// A write of a word of an object of an unchecked cache takes one turn, and is that of the lists.
pub fn writes_are_stores()
    ensures { WritesAreStores }
{}

/// So is a read.
pub fn reads_are_loads()
    ensures { ReadsAreLoads }
{}
