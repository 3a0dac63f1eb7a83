//! What a worker alone does first that has to take the current slab off its CPU. None of these does anything.

ghost use Rattle.slub_law_alone.specs.Detached.{CurrentSlabsAreDetached};

/// An allocation that finds its CPU's freelist empty and a slab current there takes the slab off in its first two turns.
pub fn current_slabs_are_detached()
    ensures { CurrentSlabsAreDetached }
{}
