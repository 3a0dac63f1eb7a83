//! `mm/slub.c` as atomic steps: the fast and slow paths by words, the law that every step keeps,
//! and a worker.
//!
//! This is the concurrent core: what the workers of a round do to the words of the allocator, one
//! atomic step after another. A worker stands at a `Spot`, which calls for one `Step` on one word;
//! the `Answer` leads it to the next spot. docs/CONCURRENCY.md tells it in the order in which a
//! reader needs it.
//!
//! - The steps, each with its function of Linux 6.1: `specs/Alloc.antt`, `Free`, `PutAway`,
//!   `PutOnList`, `MoveSet`, `Discard`, `Offline`, `Checked`; `Ops` has the operations on one word,
//!   `Steps` joins the paths (`step_of`, `advance_of`), and `Run` makes the steps of any number of
//!   workers.
//! - The invariant and its law: `specs/World.antt` has the state that the words spell, `Spots` what
//!   holds at each spot, and `Placed`, `Listed`, `Fresh` and `Accounted` are the parts of
//!   `IsCoherent`. `specs/Law.antt` has the law, `laws` cites it: each turn of any worker keeps all
//!   of it, whatever the other workers are doing. `proofs/` goes by kinds of step.
//! - What the steps leave to other parts, as functions: the run that a pool gives, the object that
//!   a checked cache gives, the order into which a node list is brought (`Means` of
//!   `specs/Setup.antt`). `Takes`, `Gifts` and `Orders` are one such set, and `meaning_laws` says
//!   that they do what the definitions of those parts ask for.
//! - What runs, as data: `worker_local` has a `Local` (where a worker stands, what it noted, knows
//!   and has in hand, and its calls with room for their replies), `setup` what stays while a round
//!   runs, `guarded` what a lock guards; `ops`, `words`, `values` and `ways` are used by the paths,
//!   which change a `Local` in place. Nothing makes a step here: the crates above do, and cite the
//!   law.
//!
//! # What it promises
//!
//! The step machine, as definitions, and its laws: `turns_keep_all`, `runs_keep_all`,
//! `rounds_keep_all`, `rounds_end`; and `pools_give`, `checked_caches_give`, `lists_are_promoted`.
//!
//! Each change of a `Local` is the change of that name in the definitions (`specs/Local.antt`);
//! `ops` gives their steps, `words` reads words as they do, and `values` changes what a lock guards
//! as they do. Contracts see a `Setup` as `Facts` (`specs/Facts.antt`), of which `setup_of` is the
//! machine of the definitions. No step takes memory: only the functions named `open` do.
#![tactic(auto)]

pub mod cache;
pub mod call;
pub mod guarded;
pub mod hands;
pub mod laws;
pub mod local;
pub mod meaning_laws;
pub mod ops;
pub mod setup;
pub mod spot;
pub mod step;
mod taken;
pub mod values;
pub mod ways;
pub mod words;
pub mod worker_local;
