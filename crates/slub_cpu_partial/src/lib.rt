//! A CPU's partial list as words: the slabs that a CPU keeps for later, without a lock.
//!
//! A `ListWord` is a front frame and a count, so that one exchange pushes to the list and one
//! swap takes it whole. A `LinkWord` leads from a slab to the next. The frames of a list are its
//! string: `string_of` of `specs/Strings.antt`, which the contracts cite. No call takes memory.
//!
//! # What it promises
//!
//! Packing and unpacking undo each other, None comes exactly where the bits say so, and strings of
//! frames are plain lists.
#![tactic(auto)]

pub mod laws;
pub mod words;
