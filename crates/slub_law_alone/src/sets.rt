//! What holds of a worker that moves a CPU's partial list alone. None of these does anything.

ghost use Rattle.slub_law_alone.specs.Sets.{FullListsAreMoved};

/// A free of an object of a full slab, where the CPU's partial list is full, moves that list to the node list and
/// discards those of its slabs that are spare, and is that of the lists.
pub fn full_lists_are_moved()
    ensures { FullListsAreMoved }
{}
