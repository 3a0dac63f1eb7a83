//! The outside: where a program's bytes come from and go to.
//!
//! A `Source` gives bytes and a `Sink` takes them, and either may fail. Each counts its faults,
//! and where it knows its bytes it tells them, so that the contracts above can say what was read
//! and what was written. Here stand the two traits, ends in memory that fail when they are told
//! to, ends that never fail, adapters over the readers and writers of std, and what is built on
//! the traits alone: writing a whole piece, writing a text line by line, reading to the end, and a
//! window onto a source, by which a long one is read piece by piece. The
//! order of threads comes from outside too: a `Gate` is what each worker of a round by threads
//! passes before its events, so that a test can hold one up, and is told at their end how often the
//! worker had to wait. It tells nothing.
//!
//! Contracts cite `Rose` and `AppendsFront` (`specs/Edges.antt`), the pieces that a sink is given
//! (`specs/Pieces.antt`), the states of the ends in memory (`specs/Memory.antt`), what an adapter
//! holds (`specs/Adapters.antt`), what comes of reading to the end (`specs/Reading.antt`), the bytes of a
//! window (`specs/Window.antt`), and std's
//! words on known bytes: `Appends`, `Consumes`, `IsAtEnd`, which claim nothing where an end tells
//! nothing. `proofs/Told.antt` has the lemmas on them for the crates above.
//!
//! # What it promises
//!
//! `Source::read` and `Sink::write` say which bytes were read or taken, that a failure comes only
//! where the count of faults rose (or stands at its greatest value), and that the count rises at
//! failed calls alone; the ends in memory and the adapters over std's readers and writers meet
//! that. `write_all` and `write_lines` take all of a text, or at a fault a front of it that isn't
//! the whole; each line with its line feed is one piece. `read_all` reads to the end, or says why
//! not. That the adapters carry bytes to and from the operating system is only tested. A gate
//! promises no more than that passing and leaving it return.
#![tactic(auto)]

pub mod adapters;
pub mod edges;
pub mod faultless;
pub mod gate;
pub mod memory;
pub mod pieces;
pub mod reading;
#[cfg(test)]
mod tests;
pub mod window;
