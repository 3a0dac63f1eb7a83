//! `__flush_cpu_slab` and `__kmem_cache_do_shrink` by atomic steps: a flush of a CPU, and a trim of
//! a cache.
//!
//! - `offline` puts away what a CPU has of a cache, for both; `slub_free_paths`, on which this
//!   stands, puts away its current slab, moves its partial list, and goes on to the next CPU or
//!   cache.
//! - `trim` is the end of a trim, under the node lock: the node list is scanned, its empty slabs
//!   are discarded, and the others are put in order (`lists`).
//!
//! As in `slub_free_paths` there is a function for the step that a spot calls for, one for the
//! answer to it, and one for the change under the node lock that calls for no step. No call takes
//! memory: the counts of a scan have their room in the worker.
//!
//! # What it promises
//!
//! Each function gives what the definition of its name in the step machine (`specs/Offline.antt` of
//! `slub_core`) gives, in every machine of the setup's facts.
#![tactic(auto)]

pub mod lists;
pub mod offline;
pub mod trim;
