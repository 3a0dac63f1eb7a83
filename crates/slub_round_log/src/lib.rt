//! The log of a round's turns: who makes them, what each line says, and where it is written.
//!
//! `Log` (`log`) watches a round (`Watch` of `slub_turns`): it says whose turn comes next (`choice`: a worker alone, the
//! draws of a seed, or a part of a list of picks), and hears what comes about in each turn while it is made. The lines
//! (`slub_turn_text`) are put together in memory, and written at the end of the turn, so a log is written as its
//! round goes, and nothing of it is kept but what a later line needs (`context`) and whose turns were made.
//!
//! Once memory lacks for a line, or a write fails, nothing more is written, and the round is ended before its next turn.
//!
//! # What it promises
//!
//! What a log has written of its turns is `turns_text` (`specs/Told.antt`) of all that came about in them, in order, where
//! its lines are shown (`laws`); whose turn comes next is `Chooses` (`specs/Choices.antt`); it ends a round only for what
//! `Halts` (`specs/Log.antt`) says.
#![tactic(auto)]

pub mod choice;
pub mod context;
pub mod kept;
pub mod laws;
pub mod log;
