//! The law of a worker that is alone: undisturbed, atomic steps do what the plain lists do. Nothing
//! runs here.
//!
//! `slub_core` has `__slab_free` and the rest as steps on words, `slub_lists` the same functions as
//! operations on lists, and `slub_law_opening` says when words rest in lists. Here the two are one.
//!
//! - One call: `specs/Alone.antt` says where a worker begins that is between two calls, and what it
//!   has come to after so many turns with no turn of another in between. `specs/Laws.antt`, `Node`,
//!   `Spent`, `Detached`, `Boards`, `Discards`, `Sets` and `CheckedAlone` say act by act which
//!   lists these are; `Allocs`, `Frees` and `CheckedAll` so of all allocations and frees, `Calls`
//!   of all calls together; `Away` is of trims and flushes. The modules of these names have the
//!   laws: `laws` has the table of them, `checked` that of checked caches, `calls` all together.
//! - One outcome: `specs/Events.antt`, `Parts`, `Rounds` and `Items` say that each operation on the
//!   lists, asked the same of the same machine, gives the same reply and leaves the same machine.
//!   `outcome_laws` has the laws.
//! - One round: `specs/Serial.antt` says when the workers of a round make their events in the order
//!   of the text, each to its end before the next one begins; `SerialLaws`, `OnTheWay` and `Only`
//!   say that this gives what the lists give. `serial_laws` has the laws, and how they are proved.
//!
//! # What it promises
//!
//! Where a machine rests in coherent lists, some turns of one worker alone give the reply that the
//! operation gives on the lists, and lead to a machine that rests in the lists that the operation
//! leaves. These are coherent, all other workers are as they were, and beside the lists only the
//! transaction id of that CPU's word has grown, by a step for each change of the word
//! (`changes_of_alloc`, `changes_of_free` of `slub_calls`). What an object has in its words when it
//! is given, nobody knows (`IsGiven`).
//!
//! `rounds_in_text_are_those_of_lists`: a round in the order of the text gives the replies and the
//! lists that its events give on plain lists, where no id comes to its end. However near to its end
//! an id is, it does so, or one is spent at its begin or on the way
//! (`rounds_in_text_are_those_of_lists_or_spend`). Whatever the lists answer and leave, memory
//! being there for each reply, such a round answers and leaves (`runs_of_lists_are_rounds`).
//!
//! Not yet: turns that are refused memory, and rounds whose workers' turns are mixed. What an
//! allocation that finds spent ids, or spends one on the way, is answered is not said.
#![tactic(auto)]

pub mod allocs;
pub mod away;
pub mod boards;
pub mod busy;
pub mod calls;
pub mod checked;
pub mod checked_all;
pub mod detached;
pub mod discards;
pub mod frees;
pub mod laws;
pub mod node;
pub mod outcome_laws;
pub mod serial_laws;
pub mod sets;
pub mod spent;
