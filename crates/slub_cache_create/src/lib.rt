//! The caches of a machine: which names are live, which caches they name, and how those are laid out.
//!
//! A `Caches` owns the table of live names, in the order of their creation, and up to 32 live
//! caches. `create` makes a cache or merges it with a live one, as `kmem_cache_create_usercopy` of
//! Linux 6.1 does (`mm/slab_common.c`, `mm/slub.c`), and `drop_name` ends a name and with its last
//! name a cache. `tune` sets a number of a live cache. The read calls look up by number or by place and
//! search nothing.
//!
//! Contracts see a `Caches` as a `Table`, and cite `specs/Merging.antt` for which cache a new one is
//! merged with, `Creates` of `specs/Create.antt`, `Drops` of `specs/Drop.antt`, `with_setting` of
//! `specs/Tune.antt`, and `IsSound` of `specs/Sound.antt`, which holds between any two calls. `laws` has what follows. `open` takes the
//! memory that the table needs; `create` takes some only where the table of live names grows.
//!
//! # What it promises
//!
//! `Caches::create` merges a new cache with the oldest live one that it fits (`Fits`,
//! `IsOldestFit`), or makes it under the least unused number; each refusal comes exactly where its
//! clause says, in order, and changes nothing. `drop_name` ends a name, and with its last name a
//! cache. `tune` sets one number of a live cache under all its names, or is refused exactly where
//! its clause says. Between any two calls each live name names a live cache, each live cache has a
//! live name and a title of its own, and layouts keep their bounds. `laws`: below 32 live names a
//! number is left, a creation is unique, merged objects lie in their slots at their own alignment,
//! merging keeps settings.
#![tactic(auto)]

pub mod caches;
pub mod laws;
mod merging;
pub mod settings;
