//! What the three functions find, for the crates above. None of these does anything.

ghost use Rattle.slub_core.specs.Laws.{PoolsGive, CheckedCachesGive, ListsArePromoted};

/// The lowest of the least blocks that have room is taken, and None says that there is none.
pub fn pools_give()
    ensures { PoolsGive }
{}

/// The first free object of the first slab is given, after each slab whose first free object is damaged.
pub fn checked_caches_give()
    ensures { CheckedCachesGive }
{}

/// Slabs with few free objects come to the front, those with the fewest first, and the others follow as they stood.
pub fn lists_are_promoted()
    ensures { ListsArePromoted }
{}
