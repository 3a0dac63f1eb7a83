//! What a worker alone does that allocates, whichever way it goes. None of these does anything.

ghost use Rattle.slub_law_alone.specs.Allocs.{AllocationsAreThoseOfLists};

/// Every allocation of an unchecked cache is that of the lists, where the transaction id of its CPU's word isn't spent
/// before the last change that it makes.
pub fn allocations_are_those_of_lists()
    ensures { AllocationsAreThoseOfLists }
{}
