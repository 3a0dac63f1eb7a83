//! What holds of turns in the order of the text. None of these does anything.
//!
//! No choice is left in this order but whether a turn is refused memory, so all such turns lead to
//! one end. A turn that is refused memory is the same as one that isn't, or its call has the reply
//! that memory was lacking (`proofs/Refused.antt`).

ghost use Rattle.slub_law_replay.specs.InOrder.{RunsInOrderGoByEach, RunsInOrderHaveOneEnd};

/// Turns in the order of the text that refuse no memory lead to one end.
pub fn runs_in_order_have_one_end()
    ensures { RunsInOrderHaveOneEnd }
{}

/// On the way there they go by each machine to which some such turns come.
pub fn runs_in_order_go_by_each()
    ensures { RunsInOrderGoByEach }
{}
