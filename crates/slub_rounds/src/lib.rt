//! A round in any way, from lists to lists: by a seed, by threads, in the order of the text; and
//! clients' rounds.
//!
//! - By steps: `scheduled` opens the machine on lists, with the transaction ids beside them, into
//!   words (`slub_open_close`), gives each worker its events as calls (`slub_calls`), lets the
//!   workers make their turns as the seed draws them (`slub_schedule`, `slub_turns`), and closes
//!   the words into lists and ids again. `watched` does the same in the order that a watcher says
//!   (`Watch` of `slub_turns`), which hears what comes about in each turn, and may have the round
//!   end. `threaded` does the same with a thread for each worker
//!   (`slub_workers`), between `seat_workers` and `closed_at`, which open a table for a round and close
//!   it, and `in_order` with each event done to its end before the next begins. Then
//!   replies are put in the order of the text, and damages and ledgers are told (`answers`). All
//!   memory is taken before the first turn, but the bytes of new checked slabs: where none is
//!   found, the machine is as it was. `begins` makes the machine with which a round on words
//!   begins. `specs/Rounds.antt` says all of them, `specs/Watched.antt` what a watcher hears.
//! - In the order of the text: `heap` has the lists between two rounds and the ids beside them.
//!   Without ids a round is done on the lists (`slub_engine`). With ids so too, where every id is
//!   far enough from its end (`IdsLast`): `on_lists` raises with each event the ids of the words
//!   that its steps would change (`RunsWithIds` of `slub_calls`, `raising`). Else it is done by
//!   steps. `specs/ByText.antt` says it.
//! - Clients' lines: `client` does a client's round, one worker on one CPU, in the order of the
//!   text; `create` creates a name as a `cache` line does. `specs/Asked.antt` has these rounds,
//!   `Kmalloc`, `BulkLines` and `Reserves` what each line is answered and leaves; `slub_kmalloc`,
//!   `slub_bulk` and `slub_mempool` serve them.
//! - Laws: `laws` of rounds by steps, `text_laws` in the order of the text, `client_laws`.
//!
//! # What it promises
//!
//! `scheduled`: a round by this seed (`DoesRoundBySeed`), with the machine coherent before each
//! turn and after the last, which is lawful (`IsRound` of `slub_law_rounds`), and leaves coherent
//! lists, all objects on the board and ids that fit; or its turns are spent (`SpendsTurns`).
//! `watched`: the same by the turns that the watcher chose, all of which it heard (`EndsWatched`);
//! or its turns are spent, or the watcher had it end (`IsUnwatched`).
//! `in_order`: the same, each turn that of the worker in a call, else of that of the first event
//! without a reply (`DoesRoundInOrder`, `SpendsTurnsInOrder`). `threaded`: the same by some picks,
//! in whatever order the threads made their steps (`DoesRoundByThreads`). `closed_at`: so does a
//! table that `seat_workers` opened (`OpensAt`), whatever made the calls of its workers at it, `round` of
//! `slub_workers` or `Worker::call`, once each event has its reply and none was a try; and the
//! round is lawful. Rounds by seed and in order are one each for a machine, want of memory aside;
//! after a lawful round the next of its trace can be done.
//!
//! `Heap::round_by_text`: a round that is lawful in the words of the text, and keeps ids that fit.
//! That it is a run of atomic steps is for `slub_law_replay`.
#![tactic(auto)]

mod answers;
pub mod begins;
pub mod client;
pub mod client_laws;
pub mod create;
pub mod ended;
mod ends;
pub mod heap;
pub mod in_order;
pub mod laws;
mod on_lists;
mod prepared;
mod raising;
mod room;
pub mod scheduled;
pub mod seated;
pub mod text_laws;
pub mod threaded;
pub mod watched;
