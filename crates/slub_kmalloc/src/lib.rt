//! Classes of sizes, from which the kernel's `kmalloc` allocates.
//!
//! `class_of` finds the class of a size. `serve` does a `kmalloc`, a `kget` or a `krealloc` on the heap that it is
//! handed; its definitions are `specs/Classes.antt` of `slub_slabinfo_text` and `specs/Kmalloc.antt` of `slub_rounds`.
//!
//! # What it promises
//!
//! `class_of` answers the first class that isn't below the size, and None exactly where the size is 0
//! or above 8192. `serve` makes the rounds of its line and gives its answer with the heap that they leave, or finds no
//! memory, or all turns of a round of it are made.
#![tactic(auto)]

pub mod classes;
pub mod serve;
