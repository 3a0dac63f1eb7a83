//! Events as calls of workers, and how often a call changes the CPU words.
//!
//! - What runs: `workers` makes of the events of a round the workers of the step machine
//!   (`slub_core`). Each has its events as calls, in the order of the text, with room for their
//!   replies, and a room for each object that they name; a call says the place of its object among
//!   those rooms, so that no step searches for it. The events are handed out one by one, each to
//!   the share of its worker (`share`), so that the work doesn't grow with the workers.
//! - Which call an event is: `specs/Calls.antt`.
//! - How often the steps of an act change which CPU word, and so raise its transaction id
//!   (`next_tid`): `specs/Changes.antt`, as a function of the lists before it and of whether an
//!   object is given, with what that leaves beside the lists (`beside_after`). `specs/Events.antt`
//!   goes from event to event (`RunsWithIds`), and says how often events change a word at most
//!   (`changes_of`). `slub_law_alone` proves that the steps change these words so often, and
//!   `slub_rounds` raises ids so.
//! - Laws: `laws` on workers, `change_laws` on changes.
//!
//! # What it promises
//!
//! The workers are `workers_of` the round, in rising number. The workers of a round that can be
//! done on a machine at rest may begin (`rounds_may_begin`), and worker number w stands at place w
//! (`workers_are_numbered`).
//!
//! An allocation changes its word twice at most, and a free once (`acts_change_few`).
#![tactic(auto)]

pub mod change_laws;
pub mod laws;
mod number_hasher;
mod share;
pub mod workers;
