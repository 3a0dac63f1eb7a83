//! What every room uses: limits, want of memory, lists that contracts see, and decimals.
//!
//! - What runs: `limits` has the limits by name; `no_memory` and `no_such_cache` are the answers
//!   that stand in more than one room; `front_list` and `sequence` are lists that contracts see as
//!   lists of their elements; `numbers` reads decimal digits.
//! - Definitions: `times` (`specs/Times.antt`) is how often a number stands in a list;
//!   `specs/Numbers.antt` says how a number is spelled, with no zero in front of others and no
//!   sign.
//! - Laws: `laws`. `proofs/` has the lemmas on lists of numbers, on sums, and on what holds of a
//!   list after one of its elements is written, which the proofs of the crates above cite.
//!
//! # What it promises
//!
//! `NoMemory` is the one type for an answer that is want of memory alone. Contracts see a
//! `FrontList` and a `Sequence` as the lists of their elements.
//!
//! `number` says what number a text spells, and a number of 64 bits is spelled by its decimal text
//! alone (`written_is_decimal`), which is what texts print.
#![tactic(auto)]

pub mod front_list;
pub mod laws;
pub mod limits;
pub mod no_memory;
pub mod no_such_cache;
pub mod numbers;
pub mod sequence;
