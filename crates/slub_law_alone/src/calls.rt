//! What a worker alone does in a call, whichever way it goes, be its cache checked or not. None of these does
//! anything.
//!
//! | Call | Law | Turns | Changes of a CPU word |
//! |---|---|---|---|
//! | allocation from a cache that is there | `all_allocations_are_those_of_lists` | some | `changes_of_alloc` |
//! | free of any number | `all_frees_are_those_of_lists` | some | `changes_of_free` |
//! | write, read that take a step | `writes_are_those_of_lists`, `reads_are_those_of_lists` | 1, of a checked cache 2 | none |
//!
//! An allocation changes the word twice at most, and a free once; no call changes that of a checked cache.
//!
//! A poke that takes a step is that of the lists by `pokes_are_stores` of `checked.rt`.

ghost use Rattle.slub_law_alone.specs.Calls.{AllAllocationsAreThoseOfLists, AllFreesAreThoseOfLists, ReadsAreThoseOfLists, WritesAreThoseOfLists};

/// Every allocation is that of the lists, where the transaction id of its CPU's word isn't spent before the last change
/// that it makes.
pub fn all_allocations_are_those_of_lists()
    ensures { AllAllocationsAreThoseOfLists }
{}

/// So is every free, whatever its number names.
pub fn all_frees_are_those_of_lists()
    ensures { AllFreesAreThoseOfLists }
{}

/// Every write that takes a step is that of the lists: in two turns where the cache is checked, else in one.
pub fn writes_are_those_of_lists()
    ensures { WritesAreThoseOfLists }
{}

/// And so is every read.
pub fn reads_are_those_of_lists()
    ensures { ReadsAreThoseOfLists }
{}
