//! Two laws of the step machine beside the one that every step keeps. Nothing runs here.
//!
//! - Words have no bit beyond their fields (`specs/Packed.antt`): the words of CPUs, slabs, partial
//!   lists, the board and links are what packing makes of what they say. The law of the step machine
//!   speaks of what words say; with this one a word is known from that alone.
//! - What a worker does at once ends (`specs/Laws.antt`): two changes are enough, and after them the
//!   worker has a step to make or is between two calls (`specs/Ends.antt`). So no worker stays under
//!   a lock with nothing to do.
//!
//! # What it promises
//!
//! `laws`: `turns_keep_words`, `runs_keep_words`, `opened_words_are_packed`, `rounds_keep_words`,
//! `changes_end`, `workers_go_on`.
#![tactic(auto)]

pub mod laws;
