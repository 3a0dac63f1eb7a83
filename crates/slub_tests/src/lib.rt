//! The tests, each of what no clause says.
//!
//! Most are numbers from outside of the proofs, as tables: layouts of caches of Linux, addresses, packed words, drawn
//! numbers and loads. Each was worked out by hand from the rules of docs/, or by other means, and never copied from what
//! a function gave. A clause says what a function does by a definition; a row of these tables shows that the definition
//! says what was meant.
//!
//! The others go through the public calls of the crates below: a trace that comes in pieces, and reads that fail in its
//! midst (`reading`); the text of a round, through sinks that take little or fail (`texts`); whole runs, at which line
//! they stop, and when a gate is passed (`runs`).
#![tactic(auto)]

#[cfg(test)]
mod layouts;
#[cfg(test)]
mod loads;
#[cfg(test)]
mod reading;
#[cfg(test)]
mod runs;
#[cfg(test)]
mod texts;
#[cfg(test)]
mod words;
