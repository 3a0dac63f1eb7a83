//! The law of what the paths ask, for the crates that run them. The function does nothing.

ghost use Rattle.slub_turns.specs.FitLaws.{TurnsFit};

/// Each turn of a worker of a coherent machine is one that the bodies of the paths can make: numbers fit into their
/// words, hands are free, the node list and the pool are there and have room, and what is put back isn't there yet.
pub fn turns_fit()
    ensures { TurnsFit }
{}
