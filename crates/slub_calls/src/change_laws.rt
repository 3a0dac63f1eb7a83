//! What holds of changes of CPU words. None of these does anything.

ghost use Rattle.slub_calls.specs.ChangeLaws.{AllocationsChangeTwice, FreesChangeOnce};

/// An allocation changes its CPU's word twice at most, and a free once.
pub fn acts_change_few()
    ensures alloc { AllocationsChangeTwice }
    ensures free { FreesChangeOnce }
{}
