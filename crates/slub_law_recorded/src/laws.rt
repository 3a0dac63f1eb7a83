//! What holds of replays of paired traces. Nothing here does anything.

ghost use Rattle.slub_law_recorded.specs.Replay.{PairedTracesReplay};

/// In a lawful journal of a paired trace, by any way, where each allocation was given its object,
/// each free was done; and a total counts the trace's allocations and frees.
pub fn paired_traces_replay()
    ensures { PairedTracesReplay }
{}
