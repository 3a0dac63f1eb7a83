//! What a log of a run has beside its turns: its head, the events of a round, and what stands before and behind a
//! round's turns.
//!
//! `events` has a round's events as the trace has them; `parts` the head of a log, and the opening and the closing of a
//! round, with the states of the machine (`slub_state_text`). The lines of turns are those of `slub_turn_text`, and replies
//! and damages those of `slub_slabinfo_text`.
//!
//! # What it promises
//!
//! Each call puts the text of its definition behind a text, or finds no memory: `head_text`, `opening_text` and
//! `closing_text` of `specs/Parts.antt`.
#![tactic(auto)]

mod events;
pub mod parts;
mod put;
