//! Recordings of kmem events, read from the text of ftrace, `trace-cmd report` or `perf script`.
//!
//! A recording is what the kernel's own events `kmem_cache_alloc`, `kmalloc`, `kmem_cache_free` and
//! `kfree` (`include/trace/events/kmem.h`) say of a workload. This crate reads its text into a
//! value; what becomes of pointers and names is for the crates above.
//!
//! - What is read: `event` has the events, `line` what one line says, `recording` the whole,
//!   `fault` why there is none, with its text. A call site is a `site`; a bad pointer is told by an
//!   `excerpt` of it.
//! - The form: `specs/Words.antt` says what words and numbers are, `Heads` what stands in front of
//!   an event's values, `Acts` what the values say, `Names` the name that a title is turned into,
//!   `Says` what a line says. `Recording` has what lines say together, and reading as a function
//!   on bytes, `Reads` what a caller of `read_recording` is promised, `Sound` what holds of every
//!   recording, `Texts` the texts of faults.
//! - Reading: `reading` has `read_recording`. Bytes are read by a window (`slub_edges`), at most 256
//!   MiB in all, and taken from it line by line (`words`, `numbers`, `heads`, `acts`, `titles`,
//!   `says`), so that no more of them is kept than the window. `state` holds what the lines above
//!   say. Sites and names are looked up by their hashes, so that each line costs
//!   steps in its length alone. Text that isn't UTF-8, and lines of any length, are ordinary input.
//! - Laws: `laws`.
//!
//! # What it promises
//!
//! `read_recording` answers with the recording that the bytes spell (`reading`), with the first bad
//! line and the first reason that it is bad for, or with what else the bytes are in place of a
//! recording; `TooLong` only beyond the limit, `ReadFault` only where the source's count of faults
//! rose. Want of memory, from the caller's allocator, is the only other answer. A recording is sound
//! (`IsSound`): it has events, their places are among its sites and names, and no CPU is greater
//! than the greatest. Every line that is an event of the four kinds is an event of the recording
//! (`every_kmem_line_is_an_event`), in the order of the lines
//! (`events_stand_in_the_order_of_lines`). A fault's text is `fault_text`. That the form is what
//! the tools print is only tested.
#![tactic(auto)]

mod acts;
pub mod event;
pub mod excerpt;
pub mod fault;
mod heads;
pub mod laws;
pub mod line;
mod numbers;
pub mod reading;
pub mod recording;
mod says;
pub mod site;
mod state;
mod titles;
mod words;
