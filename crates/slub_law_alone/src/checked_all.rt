//! What a worker alone does in a call of a checked cache, whichever way it goes. None of these does anything.

ghost use Rattle.slub_law_alone.specs.CheckedAll.{CheckedAllocationsAreThoseOfLists, CheckedBoardFreesAreThoseOfLists, CheckedFreesAreThoseOfLists};

/// Every allocation from a checked cache is that of the lists.
pub fn checked_allocations_are_those_of_lists()
    ensures { CheckedAllocationsAreThoseOfLists }
{}

/// So is every free of an object of a checked cache that the worker holds.
pub fn checked_frees_are_those_of_lists()
    ensures { CheckedFreesAreThoseOfLists }
{}

/// And every free of one that is on the board.
pub fn checked_board_frees_are_those_of_lists()
    ensures { CheckedBoardFreesAreThoseOfLists }
{}
