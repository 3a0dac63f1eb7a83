//! A worker alone at a table of atomic words, whose allocations try the fast path first.
//!
//! The rounds of the program run all workers by `round` of `slub_workers`. Here a round's one worker makes its events
//! between `round::open` and `Shared::close`: an allocation of a cache that isn't checked is tried first
//! (`Worker::try_alloc_fast`), and a call (`Worker::call`) is made of it where the try gave no object, and of every
//! other event.
//!
//! `lone` has the worker at its table: `open` opens lists and the transaction ids beside them into words
//! (`slub_open_close`) and a table with them, `try_next` and `call_next` make the next event, and `close` gives the
//! machine. `tries` makes all events of a round so. `fresh` reads a worker off a trace, for tests and for the bench.
//!
//! # What it promises
//!
//! The table is opened with the machine that the lists open into (`OpensInto`), and its worker stands as it begins,
//! in no call and with no step made (`begins_as`). `try_next` and `call_next` tell what the worker's try or call
//! was answered, and where it stands then (`HasTriedNext`, `HasCalled`). `by_tries`: the events are answered one
//! after another from the begin of the round until each has its reply (`AllAreTold`), an object that a try gave
//! being the reply to its event, and the machine that is left is one that some order of the worker's steps leads to
//! (`Leaves`). It stays in words: it isn't closed into lists. A reply that takes no step comes with the event
//! before it, and isn't told apart.
#![tactic(auto)]

pub mod fresh;
pub mod lone;
mod opening;
pub mod tries;
