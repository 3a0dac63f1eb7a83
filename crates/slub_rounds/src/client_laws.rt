//! Rounds of clients that can be done. None of these does anything.

ghost use Rattle.slub_rounds.specs.ClientLaws.{AllocationsMayBeDone, FreesMayBeDone};

/// A round that allocates an object under each of some fresh numbers can be done.
pub fn allocations_may_be_done()
    ensures { AllocationsMayBeDone }
{}

/// A round that frees some numbers can be done.
pub fn frees_may_be_done()
    ensures { FreesMayBeDone }
{}
