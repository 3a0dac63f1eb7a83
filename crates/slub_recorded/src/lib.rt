//! A recording of kmem events becomes a trace.
//!
//! - `pairing` finds which object each event allocates or frees, by its pointer: an event frees
//!   what lies at its pointer, so a free that wasn't recorded is put in just before the next
//!   allocation of its pointer, on that one's CPU. It also says what became of each event.
//! - `naming` names the cache of each object: by the slot and the kind of its kmalloc, by its own
//!   free, by the only name known for its call site and its slot, or by its sizes.
//! - `groups` has the caches, and those of a group: at most 32, at most two of a slot, and no more
//!   page frames than a machine has, the caches with most objects first.
//! - `turns` numbers the objects of the group's caches, and says what the trace does with them;
//!   `rounds` in which rounds, and by which workers; `tunes` has settings of caches. `text` writes the
//!   lines; `told` and `listed` have the comments above them.
//! - `convert` does all this.
//! - `words` and `settings` say what the words of a command line ask for, `stop` and `status` why a run
//!   stops early and how it ended. `run` is the top call of the command.
//! - Definitions: `specs/Pairing.antt` is the pairing as a fold over the events; `Turns` what a
//!   trace does of it, and what it is that objects are numbered in their order and freed at most
//!   once; `Rounds` where rounds begin and who does what, and what it is that no worker frees what
//!   another one got in the same round; `Naming` the name of each object's cache; `Text` the bytes,
//!   `Lines` the lines of the grammar of traces that they spell; `Tunes` those of settings; `Told` the
//!   comments; `Caches` the caches of a recording, `Members` the group of each, `Groups` which caches
//!   may stand together; `Converted` what a conversion promises.
//! - Laws: `laws`. What is told of fates adds up, and what `Naming` folds over moves is the slot of
//!   the first object whose free says a name, and the name that an object's own free says.
//!
//! # What it promises
//!
//! `run`, for every source, sink and list of words (`specs/Run.antt`): each status has its cause and
//! its text, which is taken whole, or after a failed write a front of it and not the whole; words
//! that ask for nothing leave the source as it was; status 0 comes only where the source's bytes
//! spell a recording, and the text is its trace.
//!
//! `convert` answers with bytes that are a trace (`IsTrace` of `slub_trace_reader`), of these lines
//! and no others: comments, a machine of 4096 page frames and 1 to 16 CPUs, at most 32 caches, their
//! settings, rounds, `slabinfo`. In the rounds stand the allocations and frees of the kept objects,
//! all of them, in recorded order and each on its CPU, and nothing else. Each is in the round, and of
//! the worker, that the options say (`steps_of`), and no worker frees what another one got in the
//! same round (`AreHeld`). Objects are allocated under the numbers from 1 on, and each is freed at
//! most once, after it. The comments tell of each event what became of it, once, so that these
//! numbers add up to all events.
//!
//! Each object has the name that `naming` gives it (`specs/Naming.antt`). It is kept exactly where a
//! cache of the trace has this name, and is of the first such cache.
//!
//! The recording has one cache for each name (`specs/Caches.antt`). Its slot is that of the first of
//! its objects. It needs whole slabs for the greatest number of its objects that live at a time,
//! with the slot as size and words as alignment (`IsNeed` of `specs/Members.antt`). The cache with
//! most objects comes first, and of two with as many the one whose name does. Each is in the first of
//! 256 groups that has room for it beside those before it: fewer than 32 caches, fewer than two of
//! its slot, and 4095 page frames for all. The caches of the trace are those of the group that is
//! asked for, all of them, in this order. Each cache that no group has room for, or that needs more
//! page frames than there are, is told with how many objects it has, and no other is told so
//! (`AreShown`).
//!
//! Of the caches of a trace at most two have the same slot, and of two the second has the letter R.
//! Those of a group together need at most 4095 page frames, and parting a group off loses no cache
//! and has none twice (`specs/Groups.antt`).
//!
//! A fault has its cause, and tells its numbers (`IsFault`): `TooManyCpus` a number of CPUs that is 0
//! or above 16; `NoSuchGroup` how many groups the recording's caches make on its CPUs, where the one
//! that is asked for isn't among them; `TooManyObjects` how many objects are kept, more than 1048576;
//! `TooLong` the length of a text with such a head, comments and body, more than 16777216 bytes. A
//! fault comes only where none above it in this order has a cause, and a trace only where none of the
//! first three has (`slub_law_faults`).
//!
//! No clause says that all objects of a cache have the slot of the first.
#![tactic(auto)]

pub mod convert;
pub mod groups;
pub mod laws;
mod listed;
pub mod naming;
pub mod pairing;
pub mod rounds;
pub mod run;
mod settings;
pub mod status;
mod stop;
pub mod text;
pub mod told;
pub mod tunes;
pub mod turns;
mod words;
