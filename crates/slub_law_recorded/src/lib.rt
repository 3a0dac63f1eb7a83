//! What holds of the traces that are made of a recording, and of their replays. Nothing runs here.
//!
//! - Paired traces: `specs/Paired.antt` says which traces allocate each object once and free it at
//!   most once, by the worker that has it or in a later round, and have no other events and no
//!   clients' lines (`IsPaired`).
//! - Their replays: `specs/Replay.antt` says what every lawful journal of such a trace tells, by any
//!   way and with any number of workers, where each allocation was given its object.
//! - Traces of recordings: `specs/Recorded.antt` says that a trace is paired and is of some turns: its
//!   events allocate and free the same objects, in their order; and what its replays tell.
//!
//! # What it promises
//!
//! `laws`: where each allocation of a paired trace was given its object, each free that was answered
//! is done, and none is told that its object isn't held or is damaged; and the sums of a total are
//! the numbers of the trace's allocations and of its frees (`paired_traces_replay`).
//!
//! `recorded_laws`: the trace that the text of a conversion spells (`IsConverted` of `slub_recorded`)
//! is paired, and is of the turns that the recording's allocations and frees come to
//! (`recorded_traces_are_paired`). So where each of its allocations is given, its replay does every
//! free, and its total has the kept allocations and the kept frees (`recorded_traces_replay`).
//!
//! How it is proved: a free of a number is its only one, and its worker holds the object, or the board
//! has it since an earlier round (`proofs/PairedRounds.antt`, `Replayed`). Line by line of a recording's
//! trace it is kept that an object which lives was allocated in the round that isn't ended, by the
//! worker that holds it, or in a round before (`RecordedRounds`, `RecordedHolders`), so that each free
//! is of an object that is there (`RecordedThere`). An object that is freed lives no more, and the
//! numbers rise, so that none is freed twice (`RecordedFrees`).
#![tactic(auto)]

pub mod laws;
pub mod recorded_laws;
