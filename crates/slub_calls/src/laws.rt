//! What follows from the definitions. None of these does anything.

ghost use Rattle.slub_calls.specs.Laws.{RoundsMayBegin, WorkersAreNumbered};

/// The workers of a round that can be done on a machine at rest may begin.
pub fn rounds_may_begin()
    ensures { RoundsMayBegin }
{}

/// The worker at place w has number w.
pub fn workers_are_numbered()
    ensures { WorkersAreNumbered }
{}
