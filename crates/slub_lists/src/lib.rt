//! `mm/slub.c` one operation at a time (`___slab_alloc`, `__slab_free`, ..): caches, slabs and
//! freelists as plain lists.
//!
//! This is the allocator as `mm/slub.c` of Linux 6.1 behaves when one event is made after the
//! other: what each CPU has of a cache (a current slab, a CPU freelist and a partial list), the
//! node's partial list, the slabs with their own freelists, the checked caches with their bytes, the
//! page pool, the table of names and caches, and the board of objects that were given. `State` is the
//! machine between two steps. Each operation is a relation between the state before, the answer and
//! the state after: `Named` (allocation), `Freeing`, `Words` (writes, reads and pokes), `Trim`
//! and `Flush` are those of events, `Create`, `Shrink`, `Destroy` and `Tune` those of what is asked between
//! rounds. `specs/Coherent.antt` says what holds between any two of them: each object of a live slab is
//! in exactly one place, each frame is free or in one run, each slab is on one list at most, and none
//! that has objects on its own freelist is lost.
//!
//! No machine is here: the calls that do this stand in `slub_list_machine`. `laws` has what follows
//! from the definitions.
//!
//! Of `proofs/` the crates above cite these: all of `Places`, on slabs, words, free pointers and lists of a
//! consistent machine; `one-slab` and `one-number` (`Apart`); `consistent-of` (`Kept`); `once-length`
//! (`Counting`); `at_some`, `was-checked` and `held-once` (`CheckedSlabs`); `the-value`, `layout-live` and
//! `slab-sized` (`CheckedGiving`); `held-slab` and `going-unlisted` (`CheckedTaking`); `slots-fit` and
//! `word-ends` (`ObjectWords`).
//!
//! # What it promises
//!
//! The definitions of the sequential semantics, and `IsCoherent`: each object of a live slab is in
//! exactly one place, each frame is free or in one run, each slab is on one list at most, none with
//! an object on its own freelist is lost, the counts are true, object number 0 names nothing.
//! Shrinking (`ShrinksCache`) changes no slab of another cache; the frames of the slabs that go
//! come free, and no others; an unused cache is left no slab. `laws`: objects share no byte, held
//! or free, a write to one leaves the words of every other, slabs lie within their frames, checked
//! slabs are on no list.
#![tactic(auto)]

pub mod laws;
pub mod lists;
