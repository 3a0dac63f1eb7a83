//! What a worker alone does that empties a CPU. None of these does anything.

ghost use Rattle.slub_law_alone.specs.Away.{CurrentSlabsArePutAway, FlushesAreThoseOfLists, PartialListsAreMoved, TrimsAreThoseOfLists};

/// A trim or a flush that has come to a CPU and a cache puts the CPU's current slab away, as the lists do.
pub fn current_slabs_are_put_away()
    ensures { CurrentSlabsArePutAway }
{}

/// It then moves the slabs of the CPU's partial list to the node list, as the lists do, and goes on to the next CPU or
/// cache.
pub fn partial_lists_are_moved()
    ensures { PartialListsAreMoved }
{}

/// So a whole flush by a worker alone is that of the lists.
pub fn flushes_are_those_of_lists()
    ensures { FlushesAreThoseOfLists }
{}

/// And so is a trim that takes a step.
pub fn trims_are_those_of_lists()
    ensures { TrimsAreThoseOfLists }
{}
