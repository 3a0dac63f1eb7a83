//! Doing the items of a trace on the machine, rounds and clients' lines among them.
//!
//! `Machine` is the machine between two items: a heap, that is, the plain lists and beside them the
//! transaction ids of the CPU words, where the trace gives the first one; the reserves of clients;
//! and how many `round` lines were done. Its definitions are `specs/Runs.antt` of
//! `slub_law_replay`, and contracts see it as a `MachineState` of that file. A round is done by
//! `slub_rounds` in the way that the caller names (`Way` of `slub_law_replay`): in the order of the
//! text, or, of two or more workers, by a seed or in threads. The seed of a round is that of the
//! way plus how many `round` lines were before, modulo 2^64. A client's line is done by the crate
//! of its request: `slub_kmalloc`, `slub_bulk` or `slub_mempool`; every other item by
//! `slub_engine`.
//!
//! Where ids stand beside the lists, rounds go on from them and leave others, clients' lines' too, and what other items
//! leave of the ids is worked out by `slub_open_close`.
//!
//! `Machine::watched_round` does a round of however many workers in the order that a watcher says (`Watch` of
//! `slub_turns`), which hears what comes about in each turn and may have the round end.
//!
//! # What it promises
//!
//! `Machine::open` opens the machine of a trace. `Machine::item` takes the machine and does an item lawfully by the way
//! (`Does`), and gives the machine back where it stands before the next item. Or it says why it didn't (`Stopped`,
//! `specs/Stopped.antt`): there was no memory, only where the item takes some, and but for a client's line the machine
//! is given back as it was, its ids too; or all turns of the round, or of one that the client's line made, are made,
//! and a worker is unfinished. `Machine::watched_round` does a round by the turns that the watcher chose, all of which it
//! heard, and leaves the machine where it stands before the next item (`specs/Watched.antt`). `Machine::total` has the
//! sums of the ledgers and of the machine.
//! `laws`: after a refusal of a `kmalloc` line the board is as it was, and after a move it differs by the two numbers
//! of its line alone, whether ids stand beside the lists or not. Along the machines of a lawful journal each client's
//! line leaves the board as its answer says, and no trim that comes last leaves an empty slab (`specs/Lines.antt`).
#![tactic(auto)]

pub mod laws;
pub mod machine;
mod round;
pub mod watched;
