//! The lines of a run that is shown step by step: of a turn, of what is done at once after it, of an answer, and of what
//! a worker has in hand.
//!
//! Each line is a function of what the step machine (`slub_core`) has there: the worker, the step, its answer, and the
//! values of the locks. Nothing here makes a step.
//!
//! - `labels`: what lines name. `columns`: what all lines have. `spots`: the names of spots, and the function of
//!   `mm/slub.c` that makes each step.
//! - `turns`: the line of a turn. `words` has the word on which the step is made, `fields` and `says` what the step says
//!   of it: from what to what, and what an exchange found that was lost.
//! - `change`, `at_once`, `checked`: the lines of what is done at once, by what is remembered before it (`Before`).
//! - `answers`: the lines of replies. `hands`, `roles`: the line of what is in hand. `doing`: whether a call has a reply.
//!
//! # What it promises
//!
//! Each call puts the line, or the lines, of its definition behind a text, or finds no memory: `head_line`
//! (`specs/Columns.antt`), `turn_line` (`Turns`), `change_lines` (`Changes`), `answer_line` and `quiet_lines`
//! (`Answers`), `hands_lines` (`Hands`). The tables of spots and functions are `Spots` and `Functions`.
#![tactic(auto)]

pub mod answers;
mod at_once;
pub mod change;
mod checked;
pub mod columns;
mod damage;
mod doing;
pub mod fields;
pub mod hands;
pub mod labels;
pub mod object;
mod roles;
pub mod says;
mod spots;
pub mod turns;
mod words;
