//! What follows of replays with one seed. It does nothing.

ghost use Rattle.slub_outcomes.specs.Laws.{OutcomesAreOne};

/// Two replays of a trace with one seed that do as many items have one outcome: where no reply is that memory was
/// lacking. So a table is a function of the trace and the words.
pub fn outcomes_are_one()
    ensures { OutcomesAreOne }
{}
