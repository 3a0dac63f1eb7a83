//! What holds of the traces that are made of recordings. Nothing here does anything.

ghost use Rattle.slub_law_recorded.specs.Recorded.{RecordedTracesArePaired, RecordedTracesReplay};

/// The trace that the text of a conversion spells is paired. Its events allocate and free the objects
/// that the recording's allocations and frees come to, in their order, as many of each.
pub fn recorded_traces_are_paired()
    ensures { RecordedTracesArePaired }
{}

/// In a lawful journal of it, by any way, where each allocation was given its object, each free was
/// done; and a total counts the kept allocations and the kept frees.
pub fn recorded_traces_replay()
    ensures { RecordedTracesReplay }
{}
