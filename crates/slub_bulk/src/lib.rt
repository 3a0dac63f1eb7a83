//! Bulk allocation and bulk free of the kernel (`kmem_cache_alloc_bulk`, `kmem_cache_free_bulk`).
//!
//! `serve` does a `bulk` or a `bulkfree` on the heap that it is handed, and gives it back with what came of it:
//! `all` takes all of some numbers or none, and `order` has the order in which a bulk free frees. The
//! definitions are `specs/BulkLines.antt` of `slub_rounds` and `specs/Bulk.antt` of `slub_slabinfo_text`;
//! `specs/Taking.antt` says which numbers may be asked.
//!
//! # What it promises
//!
//! `serve` makes the rounds of its line and gives its answer; or it stops, for want of memory or since all
//! turns of a round are made, and the heap is gone. `take_all` takes all of some numbers or frees again what
//! was given. `free_order` writes the numbers slab by slab: the slabs in the order of their first numbers, and
//! the objects of a slab in their order. `laws`: after a bulk that was given all, the board is the board before
//! and the numbers, at different addresses; a bulk free drops exactly what it freed; and after a bulk that was
//! given none, the board is as it was, and the rounds gave as many as they freed; of a checked cache only where ids
//! beside the lists can't be spent.
#![tactic(auto)]

pub mod all;
pub mod laws;
pub mod order;
pub mod serve;
