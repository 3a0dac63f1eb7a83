//! The outcomes of a race: which replies a trace has in replays by schedule with many seeds.
//!
//! `run` does what the words of a command line ask for. It reads a trace, replays it by schedule with one seed after
//! the other, and tells each different list of replies of the rounds of several workers once, with how many seeds gave
//! it and the least of them. It is a sample and no search: an outcome that no seed gave may still be possible.
//!
//! - `words`: what the words ask for. `span`: which items are done for that, and of which the replies count.
//! - `replay`: the trace with one seed; `replies` makes the text of the replies. `count`: with all of them.
//! - `tally`: how many seeds have an outcome, the least of them, and the order of outcomes. `table`: the text.
//! - `stop`, `status`: why a run stops early, and how it ended. `run`: the top call.
//! - `progress`: who is told how far a run is. `laws`: what follows.
//!
//! # What it promises
//!
//! `run`, for every source, sink and list of words (`specs/Run.antt`):
//!
//! - each status has its cause and its text, which is taken whole, or after a failed write a front of it and not the
//!   whole; words that ask for nothing leave the source as it was;
//! - where all was done, the source's bytes spell one sound trace, and for each seed there is a replay (`IsReplayed`):
//!   a journal that is lawful for the trace by schedule with this seed, up to the end of what was asked for or up to an
//!   item whose turns are spent, with the replies that count;
//! - the lines are the outcomes of these replays (`AreOutcomes`): each text once, with how many seeds have it and the
//!   least of them, by falling counts and then by rising seeds; the counts add up to the number of seeds.
//!
//! `laws`: a seed has one outcome.
#![tactic(auto)]

mod count;
pub mod laws;
pub mod progress;
mod replay;
mod replies;
pub mod run;
mod span;
pub mod status;
mod stop;
mod table;
mod tally;
mod words;
