//! So many turns of a worker alone are those of one call. None of these does anything.

ghost use Rattle.slub_law_alone.specs.Busy.{CallsEndWithReplies, TurnsAreOfOneCall};

/// A call that isn't a try ends with its reply: a worker that is between calls for the first time since it began one
/// has one reply more by a step, that to this call.
pub fn calls_end_with_replies()
    ensures { CallsEndWithReplies }
{}

/// Where a worker alone has its reply and the machine is at rest, its turns are those of its call: further ones, if any,
/// change nothing.
pub fn turns_are_of_one_call()
    ensures { TurnsAreOfOneCall }
{}
