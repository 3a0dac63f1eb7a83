//! Doing the items of a trace on the plain machine.
//!
//! `item` does one item of a trace on the lists, but a round and a client's line, as `specs/Lawful.antt` of
//! `slub_slabinfo_text` says, `serial` a round in the order of the text, and `total` sums up; `running` has such a
//! round event by event, for a loop of a crate above; and `counts` counts what slabinfo says of a cache.
//! The crate owns no machine: it works on the `Lists` that it is handed.
//! `specs/Steps.antt` has the steps of a round and `specs/Sums.antt` the sums, for the clauses of
//! private functions, and `specs/Running.antt` how far a round has come.
//!
//! # What it promises
//!
//! `item` does an item that is neither a round nor a client's line lawfully (`DoesPlain`), and `serial` a round
//! (`DoesRound`), or they find no memory, only where they take some, and leave the machine as it was given;
//! a `Running` has answered the events that it was handed since it began, one after the other (`HasRun`), and at
//! its end it has done their round (`DoesRound`); `total` sums the ledgers and the machine; `cache_counts` and
//! `info_rows` count.
#![tactic(auto)]

pub mod counts;
pub mod found;
pub mod item;
pub mod running;
mod sums;
