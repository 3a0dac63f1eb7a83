//! `alloc_single_from_partial`, `alloc_single_from_new_slab` and `free_debug_processing` by steps:
//! the calls of a checked cache, under its lock.
//!
//! - `checked` has the step that a spot calls for, the answer to it, and what is done at once: a
//!   call of the checked cache's slabs (`slub_red_zone`) or of the page pool.
//! - `slabs` has the calls of the slabs, which stand behind the lock.
//!
//! Only `AddSlab` takes memory, for the bytes of a new slab. Where there is none, the frames go
//! back and the reply is NoMemory.
//!
//! # What it promises
//!
//! Each function is equal to the definition of its name in the step machine (`specs/Checked.antt`
//! of `slub_core`), in every machine of the setup's facts; that memory was refused is told by the
//! reply.
#![tactic(auto)]

pub mod checked;
pub mod slabs;
