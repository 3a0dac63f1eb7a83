//! `slab_alloc_node` and `___slab_alloc` by atomic steps: an allocation of an unchecked cache.
//!
//! - `step` has the step that each spot calls for, `advance` where its answer leads, `at_once` what
//!   is done at once under a lock.
//! - Each spot has a function of its own, in the order of `mm/slub.c`: `fast` the fast path, `own`
//!   the current slab's freelist (`get_freelist`), `list` the CPU's partial list, `node` the node
//!   list (`get_partial_node`), `fresh` a new slab (`new_slab`), `install` the slab that becomes
//!   current (`load_freelist`). `words` has the words that they leave.
//!
//! # What it promises
//!
//! `alloc_step`, `alloc_advance` and `alloc_at_once` are the definitions of these names in the step
//! machine (`specs/Alloc.antt` of `slub_core`), with the worker changed in place, for every machine
//! and every answer. What they ask of the worker stands in `specs/Fits.antt`: that a transaction id
//! has room for a step, that a hand is free, and that a walk's length fits.
#![tactic(auto)]

pub mod advance;
pub mod at_once;
mod fast;
mod fresh;
mod install;
mod list;
mod node;
mod own;
pub mod step;
mod words;
