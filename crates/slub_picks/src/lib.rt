//! What a run by steps is asked for, and which turns its rounds make.
//!
//! A run by steps replays a trace by schedule and prints each turn. The turns are those that a seed draws, or they are
//! written down: a list of picks has a part for each round of two or more workers, and a part says all turns of its
//! round, entry after entry.
//!
//! - `words`: what the words of a command line ask for (`specs/Words.antt`).
//! - `list`: lists of picks, and reading one (`specs/List.antt`). `numbers`, `splitting`: what both read with.
//!   `unread`: why they weren't read.
//! - `walk`: the way along a part, turn by turn. `specs/Turns.antt` says which turns of a round a part says,
//!   `specs/Misfits.antt` where a part doesn't fit its round, `specs/Walks.antt` where a walk is.
//! - `made`: the turns that were made, and the part that says them in its shortest form (`specs/Made.antt`).
//! - `laws`: that this part says the turns.
//! - `faults`, `status`: the fault lines of picks and of rounds, and how a run ended.
//!
//! # What it promises
//!
//! - `read` answers with the request that the words are (`IsRequest`), `BadWords` exactly where they are none, and else
//!   that memory was refused. `read_list` does so for a text and a list of picks (`IsPickList`).
//! - A round that asks a `Walk` for each of its turns and tells how each ended makes turns that its part says (`Say`),
//!   one entry after the other: an entry `W:event` or `W:end` ends at a turn that ends the event, or that is lost at a
//!   lock, and `W:end` also where the worker is finished. `next` and `end` tell a misfit only where there is one, with
//!   the number of its entry (`IsMisfit`).
//! - `Made` has the workers of the turns in order, in runs of which no two could be one (`IsMade`); its text is that of
//!   these runs.
#![tactic(auto)]

pub mod faults;
pub mod laws;
pub mod list;
pub mod made;
mod numbers;
mod splitting;
pub mod status;
pub mod unread;
pub mod walk;
pub mod words;
