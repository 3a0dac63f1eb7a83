//! A run by schedule, written step by step: `steps`.
//!
//! `run` reads the words and the trace (`slub_asked`), replays the trace item by item, and writes its log as it goes. A round
//! is done by steps under a log that watches it (`slub_items`, `slub_round_log`), in turns that a seed draws or a list of picks
//! says; every other item as in a replay by schedule.
//!
//! - `run`: the top call; the page around a log.
//! - `replay`: the items, and what stands behind them; which rounds are shown.
//! - `round`: a round, what stands before its turns and behind them, and why it stops.
//! - `choices`: who says whose turn comes next.
//! - `writing`: what is written of an item.
//! - `live`, `titles`: the names that are live, and the titles of caches, as lines show them.
//!
//! # What it promises
//!
//! `IsRunOf` (`specs/Run.antt`) says it of every call. The whole text of a log is `IsLog` (`specs/Written.antt`), that of a
//! round `IsRoundTold` (`specs/Rounds.antt`); whose turns they are, and where picks don't fit, `EndsSaid` and `Misfits`
//! (`specs/Sayers.antt`). Where memory is lacking or a write fails, what was written is as `StopsLog` says (`specs/Written.antt`).
#![tactic(auto)]

mod choices;
mod live;
mod replay;
mod round;
pub mod run;
mod titles;
mod writing;
