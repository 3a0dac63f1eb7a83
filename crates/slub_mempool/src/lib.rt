//! Reserves of objects, after the kernel's `mempool`.
//!
//! `Reserves` keeps numbers of objects that are on the board, for the time when a cache gives none: it owns
//! the room of its lists and no machine. `Reserves::serve` does a `mempool`, an `mget` or an `mput` on the
//! heap that it is handed, and gives it back with what came of it. The definitions are `specs/Reserves.antt` of
//! `slub_rounds`.
//!
//! # What it promises
//!
//! `serve` makes the rounds of its line, gives its answer and leaves the reserves that the line says; or it
//! stops, for want of memory or since all turns of a round are made, and the heap is gone. After it each reserve
//! has at most as many numbers as it may keep, no number stands twice in all of them, and each is on the board.
//! `open` takes all room that the reserves ever need.
#![tactic(auto)]

pub mod laws;
mod reserve;
pub mod reserves;
