//! The grammar of traces, read from bytes (`read_trace`), and generated loads (`load_trace`).
//!
//! - The grammar: `specs/Lines.antt` says which text says which line, `Above` what the lines above
//!   a line say, `Grammar` which lines may stand where, which numbers are in range and what has to
//!   stand above. `Faults` has the ten reasons for a bad line and their order, `Reads` what a
//!   caller of `read_trace` is promised. `Forms` is the reading of one line as a function, which
//!   the code computes and `Lines` does not share, and `Reading` that of all bytes.
//! - Reading: `reading` has `read_trace`. The text is never held whole: a source is read into a
//!   window of 64 KiB (of `slub_edges`), which doubles for a line that is longer, and lines are taken from
//!   it as long as a line feed is left. A bad line is told only once the rest of the source was
//!   read and counted, since a read that fails and a source that is too long come before it. Each
//!   line costs steps in its length alone, and takes no memory but for what it adds, save marks by
//!   object number: names are looked up by their hashes, objects by marks (`objects`, `written`),
//!   and nearly all lines of a long trace are taken as soon as they are told (`quick`).
//! - Loads: `load` makes the trace of a seed, so many events and so many workers.
//!   `specs/Generator.antt` says which numbers a seed gives, `specs/Load.antt` what the workers do
//!   with them. Each event costs the same number of steps, and all memory is taken before the
//!   first.
//! - Laws: `laws` of reading, `load_laws` of loads.
//!
//! # What it promises
//!
//! `read_trace` answers with the trace that the bytes spell by the grammar (`IsTrace`), and no
//! other trace is spelled by them; `BadLine` exactly where none is, with the first bad line and the
//! first of the ten reasons that holds of it; `TooLong` only beyond the limit, `ReadFault` only
//! where the source's count of faults rose. What it reads is sound (`IsSound` of `slub_trace`).
//! Reading as a function on bytes is the grammar, value and fault (`reading_is_the_grammar`). It
//! alone takes memory from the caller's allocator.
//!
//! `load_trace` answers with the trace that `load_of` says, the same whenever its three numbers
//! are, and that trace is sound; want of memory is the only other answer. At any time each worker
//! has freed only what it allocated before, the longest held first, and in the end everything.
#![tactic(auto)]

mod check;
mod classes;
pub mod client;
mod digits;
mod generator;
mod held;
pub mod laws;
pub mod line;
pub mod load;
pub mod load_laws;
mod names;
mod numbers;
mod objects;
pub mod place;
mod quick;
pub mod reading;
mod state;
mod taking;
mod words;
mod written;
