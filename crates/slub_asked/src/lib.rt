//! What a run by steps was asked for, and how it ends.
//!
//! - `asked`: the words of the command line and the trace, read. The words are read before a byte of the trace.
//! - `stop`: why a run stops early, with its fault line and its status.
//! - `ending`: what is written at the end of a run: the fault line, where there is one, and the back of a page.
//!
//! # What it promises
//!
//! - `read_asked` answers with the request that the words are and with the one sound trace that the bytes spell, or says why
//!   not (`IsAsked`); words that ask for nothing leave the source as it was.
//! - Each stop has the line and the status of its cause (`stop_line`, `stop_status`).
//! - `end` says with which status a run ends: the one that it came to, where all was written; that of a failed write
//!   where a front of the text was taken, and not the whole, or a write failed before (`Ends`).
#![tactic(auto)]

pub mod asked;
pub mod ending;
pub mod stop;
