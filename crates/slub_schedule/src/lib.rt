//! Rounds by schedule: a seed draws whose turn it is, the same at each run; or anything else says it.
//!
//! `Draws` is the generator, `Order` the workers that are unfinished, `Table` the words of the
//! machine, on which a step is applied, and `turns` says how many turns a round may take. A `Table`
//! has the words of the frames as a `Memory` of its own (`slub_words`), which `into_memory` gives
//! back: they are moved in and out, and not copied. `scheduled` runs a round on any `Machine` whose
//! workers make turns of the step machine, and which says itself whose turn comes next, by the numbers
//! that a seed draws or by anything else, and may stop the round. `specs/` says which turns lead from
//! one state of such a machine to another (`AreMade`) and how a round ends, has its turns spent or is
//! stopped then (`EndsBy`, `IsUnended`); which picks a seed draws (`AreDrawn`), when a round by seed
//! ends and when its turns are spent (`EndsRound`, `IsSpent`), what a round
//! leaves in which each worker is finished (`IsQuiet`, `AreHolders`), and what the machine is once it
//! is closed (`closed`, `IsBoardAfter`). No step of a path stands here: this crate knows where steps
//! lead by the definitions of `slub_core` alone. `number` and `answer` of `table` say where a word
//! stands and what a step answers that finds it, also for workers that share a table of words.
//!
//! # What it promises
//!
//! Each call is its definition; `Table::apply` is the step of the step machine on the words.
//! `scheduled` makes turns that the machine chooses, until each worker is finished and nothing is left
//! to be chosen, and says exactly when the turns are spent and why it was stopped. `laws`,
//! of a round that opens at rest: the machine is coherent at each turn that a seed draws; a turn is
//! that of an unfinished worker; a round ends or its turns are spent, and never both; of one seed and
//! one machine there is one such round, want of memory aside; where it ends nothing is under way,
//! calls, replies and boards are those of a round, and it closes into a machine at rest.
#![tactic(auto)]

pub mod draws;
pub mod laws;
pub mod machine;
pub mod order;
pub mod table;
pub mod turns;
