//! `do_slab_free`, `__slab_free` and what they call, by atomic steps: the free of an unchecked
//! cache, and the ways that it shares with the other paths.
//!
//! - `free` is the free itself, `put_on_list` puts a slab on a CPU's partial list
//!   (`put_cpu_partial`), `move_set` moves such a list to the node (`__unfreeze_partials`),
//!   `put_away` puts a slab away that was current (`deactivate_slab`), `discard` gives an empty one
//!   back (`discard_slab`), and `lists` takes a slab off a node list (`remove_partial`).
//! - `sweep` is where a trim or a flush goes on, `uses` writes and reads words of objects
//!   (profile).
//!
//! Of each path there are three functions: `.._step` gives the step that a spot calls for,
//! `.._advance` takes the answer and changes the worker in place, and `.._at_once` makes the change
//! under a lock that calls for no step. No call takes memory.
//!
//! # What it promises
//!
//! Each function gives what the definition of its name in the step machine (`slub_core`) gives, in
//! every machine of the setup's facts: the step, the worker after it, the reply that its call has
//! by it, and the values of the locks. `requires` ask only that numbers fit into their words, and
//! that what a change under a lock takes or puts may be taken or put there (`specs/Fits.antt`).
#![tactic(auto)]

pub mod discard;
pub mod free;
pub mod lists;
pub mod move_set;
pub mod put_away;
pub mod put_on_list;
pub mod sweep;
pub mod uses;
