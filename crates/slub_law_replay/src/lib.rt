//! The law of a whole replay: which journals are lawful for a trace and a way, and what follows.
//! Only `way` runs.
//!
//! - Ways: `way` has them, `specs/Ways.antt` says what each makes of a round. By `Serial` its
//!   events are answered in the order of the text; by `Schedule` its workers make turns as a number
//!   draws them, by `Threads` as their threads come to them; by both a round of one worker is as by
//!   `Serial`.
//! - Lawful journals: `specs/Runs.antt` has the machine between two items (the lists, the
//!   transaction ids beside them where the trace's first one isn't 0, the reserves of clients, how
//!   many `round` lines were done), what each item does to it, and which journals are lawful: the
//!   items answer the trace's first items, one each, from the opening machine on, and the machine
//!   is coherent between any two steps. Where ids stand beside the lists every round begins at them
//!   and leaves those that the next item finds; any other round of several workers by steps begins
//!   with first ids anew.
//! - Each round is a run of atomic steps, whatever the way: `specs/OfSteps.antt`. By schedule and by
//!   threads that is how it is done. What is done on the lists the workers would do by steps in the
//!   order of the text, each event to its end, and be told the same (`proofs/OfSteps.antt`): where
//!   no ids stand beside the lists the steps begin at first ones, of which a round spends none. Of a
//!   round on the lists with a reply that memory was lacking it isn't said. `specs/Rounds.antt` says
//!   it of each round of a journal, along its machines. In it each answer of a poke has its cause,
//!   and each transaction id that was found spent; where frames lacked, the pool had none at some
//!   moment, and where a poke found no object that its worker knows, its slab was gone
//!   (`specs/Causes.antt`).
//! - What follows of every lawful journal: `journal_laws`, with `specs/Freed.antt`, `Rounds`,
//!   `Poked`, `Shrinking` and `Trimmed`; `laws` on what can be done before an item and after it.
//! - One text: `one_text_laws` says that two lawful journals of a trace by one way and seed are the
//!   same, and `order_laws` that turns in the order of the text lead to one end.
//! - Steps and lists: `in_text_laws` says that a round by steps in the order of the text is one on
//!   the lists, and how that is proved. `poke_laws` says where damage comes from
//!   (`specs/Off.antt`).
//!
//! # What it promises
//!
//! `laws`: a round by any way is lawful (`IsRound` of `slub_law_rounds`). A machine that stands
//! before a round of a sound trace can do it, and before a client's line can serve it; no item
//! brings a count of wanted frames to its end. In a lawful round a value is read only where its
//! worker put each byte of the word, or took the object from the board by a free that found it
//! damaged (`reads_follow_writes`).
//!
//! Of every lawful journal of a sound trace: no number is given or freed twice, given less freed is
//! live, each damage was poked. By whichever machines it is lawful, each round leads along them, is
//! lawful, and is a run of atomic steps, with the machine coherent before each and after the last,
//! and bytes of checked caches come from where they may after each
//! (`rounds_of_a_journal_are_of_steps`). Of every coherent machine: live, free and set-aside objects
//! make up a cache's objects; shrinking leaves the slabs in use, in the order of promotion; an
//! unused cache that was trimmed last is empty.
//!
//! `journals_are_one`, `texts_are_one`: the text of a replay is a function of the trace, the way
//! and the seed, where no reply is that memory was lacking; by threads only where no round has
//! several workers. `rounds_in_order_are_those_of_lists`, `rounds_on_lists_are_runs`,
//! `rounds_end_with_pokes`.
#![tactic(auto)]

pub mod in_text_laws;
pub mod journal_laws;
pub mod laws;
pub mod one_text_laws;
pub mod order_laws;
pub mod poke_laws;
pub mod way;
