//! What a free does that empties a slab of a node list which is long enough without it.

ghost use Rattle.slub_law_alone.specs.Discards.{LastOfListedAreDiscarded};

/// A free of the last object in use of a slab of the node list, where that list is long enough, takes ten turns: the
/// slab comes off the list and is discarded, as on the lists.
pub fn last_of_listed_are_discarded()
    ensures { LastOfListedAreDiscarded }
{}
