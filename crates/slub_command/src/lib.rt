//! The command line: which command its words spell.
//!
//! `read` says which of the three commands the words are, or that they are none. `specs/Command.antt`
//! says which words spell which command, `specs/Options.antt` what the options of `replay` are, and
//! `specs/Spelling.antt` how numbers and flags are spelled; none of them reads words one after the
//! other. `laws` says that words spell one command only.
//!
//! The crate `clap` tells the options of `replay` from their values, and puts the words of `layout`
//! and `load` at their places; `specs/Arguments.antt` has what it is given. It never sees `--`, behind
//! which it would take every word for a value. Numbers and flags are read here. What takes memory is
//! `clap` alone.
//!
//! # What it promises
//!
//! `read` answers with the command that the words spell (`IsCommand`), BadWords only where they
//! spell none, and want of memory only behind a command's name. `laws`: words spell one command
//! only.
#![tactic(auto)]

pub mod command;
pub mod laws;
mod options;
mod places;
mod spelling;
