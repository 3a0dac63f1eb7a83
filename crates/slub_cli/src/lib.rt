//! The program's top call: from words and bytes to a text, a status, and the journal of what was done.
//!
//! `run` does what the words of a command line ask for. A replay reads a trace whole, does its items
//! in order, writes the text of each item as it is done and the total at the end; the rounds are done in
//! the order of the text, by schedule, in turns that a number draws, or by threads, one for each worker. Where
//! the trace gives a first transaction id, the ids of the CPU words grow from round to round. A load does so,
//! by schedule, with a trace that it makes from a number. A layout is printed. Of these a replay alone reads
//! the source. The contract of `run` is the whole promise of the program: `specs/Run.antt` has the table of
//! statuses, the text and the law that its clauses cite.
//!
//! # What it promises
//!
//! `run`, for every source, sink and list of words, by the record `IsRunOf` and the clauses
//! `lines` and `untouched`:
//!
//! - *ends*: what was asked, and
//!   - *cause*: why the run ended so;
//!   - *wrote*: what was written: the text of the trace and the journal and the one fault line of the
//!     status, or after a failed write a front of that and not the whole; which faults were counted;
//!   - *lawful*: the trace is the one that the source's bytes spell, or the load of the numbers that the words
//!     give; it is sound, and the journal is lawful for it and for the way that was asked: the machine is
//!     coherent after each item, and in the order of the text after each event;
//!   - *over*: over the whole run no number is given or freed twice, given less freed is live, and damage was
//!     poked; and each round, of clients too, is lawful, and is a run of atomic steps, with the machine coherent
//!     before each step and after the last, whatever the way (want of memory aside); and each client's line leaves
//!     the board as its answer says, and no trim that comes last leaves an empty slab of an unused cache;
//! - *bad_words*, *bad_trace*, *complete*, *serial*, *threads*, *load*, *done*, *layout*: which status a run must
//!   have; `Status::number` gives its number;
//! - *one_text*: what a run wrote is a function of the trace, the way and the seed: it is the text of every journal
//!   that is lawful for them and tells as much, but where memory was wanting, or threads of several workers made
//!   a round;
//! - *lines*: each line that it writes is given to the sink as one piece, and then an end of it wherever a part of it
//!   was taken;
//! - *untouched*: where the words don't ask for a replay, the source is as it was.
#![tactic(auto)]

mod layout;
mod replay;
pub mod run;
pub mod status;
pub mod stop;
