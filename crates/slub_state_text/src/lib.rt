//! The text of a state: what the machine on plain lists has between two rounds, row by row.
//!
//! A row is two spaces, a label in its column, fields, and a line feed. The pool's comes first, then
//! those of each live cache, the oldest first, then those of the board. A cache's are its own, with
//! the numbers of its layout as tuned and its names, those of its CPUs, of their partial lists, of its
//! node and of its slabs. What words say is what the words say into which the machine opens
//! (`slub_law_opening`): a CPU's word with its transaction id, a CPU's list word, a slab's word. A
//! checked slab has none, and its row tells its objects.
//!
//! - `state` is the whole; `pool`, `caches`, `cpus`, `slabs` and `board` are its parts.
//! - `put` and `ranges` put labels, fields and ranges `A..B` behind a text.
//! - `names`: the live names in the order in which they were made, which the caller keeps; `laws` says
//!   how a creation and a destruction change those of a machine.
//!
//! # What it promises
//!
//! `state::push_state` puts the text behind another that `specs/State.antt` gives a coherent machine,
//! with the transaction ids and the live names that it is passed, or finds no memory. The free frames
//! are those of the machine's pool: they are found from the slabs, each of which has the frames that
//! the pool hasn't.
#![tactic(auto)]

mod board;
mod caches;
mod cpus;
pub mod laws;
pub mod names;
mod pool;
mod put;
mod ranges;
mod slabs;
pub mod state;
