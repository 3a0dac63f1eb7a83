//! The law of a round's begin and end: lists and words agree, before and after. Nothing runs here.
//!
//! Between rounds a machine is its lists (`State` of `slub_lists`); inside a round of several
//! workers it is a table of words and what the locks guard (`World` and `System` of `slub_core`).
//!
//! - How a round begins: `specs/Opening.antt` says which words a coherent machine opens into, and
//!   what stands beside the lists (`Beside`: transaction ids); `specs/Table.antt` has the table of
//!   words.
//! - When words say what lists say: `specs/Rests.antt`, class of words by class of words, where no
//!   worker is in a call (`Rests`).
//! - How a round ends: `specs/Closing.antt` says what a machine closes into.
//! - What else no step changes (`IsBounded` of `specs/Bounded.antt`): the counters of a worker stay
//!   small (`put`, how many slabs an allocation has put on the CPU's partial list, and `count`, of
//!   how many a trim or a flush is to tell); each worker has its number; a CPU that the machine
//!   hasn't has no slab; checked slabs keep their flags. The law of the step machine says none of
//!   that, and closing asks it.
//! - Laws: `laws` on opening and closing, `bound_laws` on what else stays.
//!
//! # What it promises
//!
//! `laws`: `opened_machines_rest`, `opened_machines_close`, `coherent_lists_stand`,
//! `words_tell_lists`, `closed_machines_are_coherent`, `machines_close`, `rounds_keep_lists`. So
//! rounds follow one another: coherent lists open into words with which a round may begin, the
//! steps keep those coherent (`slub_core`), and what is closed is coherent and may be opened again.
//! Reports, free frames with their counts of refusals, the board and the words of objects come
//! through unchanged.
//!
//! `bound_laws`: `turns_keep_bounds`, `runs_keep_bounds`, `bounded_counts_fit`,
//! `rounds_begin_bounded`, `machines_may_close`, `rounds_close_into_lists`. The last one ends it:
//! whatever the order of turns, a round that began with coherent lists and in which every call has
//! its reply closes into coherent lists, with which the next round may begin.
#![tactic(auto)]

pub mod bound_laws;
pub mod laws;
