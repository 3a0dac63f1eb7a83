//! The words that steps exchange (`struct kmem_cache_cpu`, `struct slab`, free pointers), and the
//! memory of the frames.
//!
//! - Words, each packed into one `u64`, so that one exchange changes all of it: `cpu` has a CPU's
//!   current slab and the head of its freelist, with a transaction id that each change raises
//!   (`next_tid`); `slab` a slab's own freelist, its counts and its marks; `board` where a held
//!   object stands; `free` the next of a free object, hardened as `freelist_ptr` does it. `words`
//!   reads words that stand elsewhere. The bits are those of `specs/Words.antt`, and are profile
//!   but for the free pointers.
//! - The memory: a `Memory` is the list of the words of the page frames, of which only those up to
//!   the last one that was written are stored; the others are 0, and the room for them isn't
//!   touched. It goes from the lists of a machine into its words for a round by steps, and back,
//!   and nothing of it is copied by that. To a round by threads it lends a row of all words, from
//!   which they go into the table that the threads share; at the end they are read from that table,
//!   and those up to the last one that isn't 0 are stored.
//! - Laws: `laws`.
//!
//! # What it promises
//!
//! Packing and unpacking undo each other, None comes exactly where the bits say so, and free
//! pointers are hardened.
//!
//! Contracts see a `Memory` as the list of all its words. After `open` no call that writes words
//! takes memory; only `stored` does, for the words that it copies, and `lend_row` where the row
//! that came back is too short.
#![tactic(auto)]

pub mod board;
pub mod cpu;
pub mod free;
pub mod laws;
pub mod memory;
mod parts;
pub mod slab;
pub mod words;
