//! What holds of a worker alone that takes slabs of a node list. None of these does anything.

ghost use Rattle.slub_law_alone.specs.Node.{NodeSlabsAreTaken};

/// An allocation of a CPU without a slab of its cache takes the first slab of the node list, and brings a batch of
/// further ones to the CPU's partial list: nine turns, and five for each further slab. It is that of the lists.
pub fn node_slabs_are_taken()
    ensures { NodeSlabsAreTaken }
{}
