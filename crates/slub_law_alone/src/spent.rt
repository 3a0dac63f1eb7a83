//! What a worker alone does whose CPU has nothing left of its current slab. None of these does anything.

ghost use Rattle.slub_law_alone.specs.Spent.{SpentSlabsAreTakenOff};

/// An allocation that finds the current slab without a free object takes it off the CPU in four turns, and goes on
/// as an allocation of a CPU without a current slab.
pub fn spent_slabs_are_taken_off()
    ensures { SpentSlabsAreTakenOff }
{}
