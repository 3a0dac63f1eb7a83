//! What a worker alone does that frees, whichever way it goes. None of these does anything.

ghost use Rattle.slub_law_alone.specs.Frees.{FreesAreThoseOfLists};

/// Every free of a number that names an object of an unchecked cache, or nothing, is that of the lists, where the
/// transaction id of the cache's word on the call's CPU isn't near its end.
pub fn frees_are_those_of_lists()
    ensures { FreesAreThoseOfLists }
{}
