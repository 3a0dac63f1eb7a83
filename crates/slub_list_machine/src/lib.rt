//! `mm/slub.c` on plain lists, as calls: `slab_alloc_node`, `__slab_free` and the rest in the
//! sequential semantics of `slub_lists`.
//!
//! - The calls of events: `alloc` (with `stock`, `node`), `free` (with `partial`, `discard`),
//!   `checked` for checked caches, `words` (writes, reads and pokes), `trim`, `flush_cpu` (with
//!   `flush`).
//! - The calls between rounds: `create`, `shrink` (with `shrink_checked`), `destroy`, `tune`.
//! - The machine: `lists` has it, `own_lists` the slabs' own freelists, `parts` takes it apart for
//!   a round of several workers.
//!
//! A `Lists` is the machine, and contracts see it as the record `State` of `slub_lists`. What is
//! never used is not touched: the words of the frames (`slub_words`) and the places of the slabs'
//! own freelists are stored as far as they were written. A round by threads copies all words of the
//! frames into the table that its threads share, and back.
//!
//! # What it promises
//!
//! `Lists::alloc_named`, `free`, `write`, `read`, `poke`, `trim`, `flush`, `create`, `tune`,
//! `shrink`, `destroy` and `end_round` are their definitions in `slub_lists`, and each keeps the
//! machine coherent. After `open` only checked caches take memory, at their creation and for each
//! new slab: an allocation that finds none puts its run of frames back, and a creation that finds
//! none changes nothing. `Lists::into_parts` and `from_parts` take the machine apart and put it
//! together, with nothing lost.
#![tactic(auto)]

pub mod alloc;
mod checked;
pub mod create;
pub mod destroy;
mod discard;
mod flush;
pub mod flush_cpu;
pub mod free;
pub mod lists;
pub mod node;
pub mod own_lists;
mod partial;
pub mod parts;
pub mod shrink;
mod shrink_checked;
mod stock;
pub mod trim;
pub mod tune;
pub mod words;
