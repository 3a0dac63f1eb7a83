//! Rounds by threads: each worker in a thread of its own, over one table of atomic words.
//!
//! The words of the machine are those of a table (`atomic_table`), and what a lock guards lies in a slot of it. A
//! worker takes the value out of the slot once it has won the lock's word, and puts it back before it stores 0 there.
//! Each step is one sequentially consistent operation on one word. The rule over the table (`specs/Rule.antt`) is that
//! a run of turns of the step machine (`slub_core`) leads to its words, values and workers, and that the invariants of
//! that machine hold: so they do at every step, whatever order the threads' steps have.
//!
//! Threads on different CPUs mostly exchange different words, each those of its CPU and of its slabs, and would wait
//! for each other where these lie in one line of 64 bytes, as would threads that take the locks of two caches. So lock
//! words, list words, CPU words, and the 512 words from 1057 on (in a machine of 512 frames or more the slab words of
//! frames 0 to 511) lie in cells whose numbers needn't be theirs (`cell`, `specs/Cells.antt`): any two lock words, the
//! CPU words of a cache, the list words of a cache below 15, and the slab words of two frames of one block of 64 lie at
//! least 64 bytes apart. All other words lie in the cells of their numbers. The machine's own table waits beside the
//! cells: its words are copied into them as the shared table is opened, and it reads them there as that is closed.
//!
//! `round` has what is done with a round's table: `open` opens it (`shared`) and gives each worker a seat (`worker`),
//! `round` lets them make their turns there until each event has its reply, and takes the seats back, and `Shared::close`
//! gives the machine. `slub_rounds` does the three together (`seated`, `threaded`). `step` makes one step on the table,
//! and `waits` has what a worker does after one that it lost. The six spots of the two fast paths have turns of their own
//! (`quick`), made of the parts in `quick` of `slub_turns`, in which nothing is left to choose; each is the turn of the
//! step machine all the same. A try is made of three of them (`try_turns`).
//!
//! Call by call, in place of `round::round`: a worker makes its next call by `call`, which may wait for a lock, or tries
//! it by `fast`, the fast path alone, which never waits; `Workers::end` takes the seats back. A table that was opened has
//! to be closed.
#![tactic(auto)]

pub mod call;
pub mod cell;
pub mod fast;
mod quick;
pub mod round;
mod rule;
pub mod shared;
mod standing;
mod step;
mod try_turns;
mod waits;
pub mod worker;
pub mod workers;
