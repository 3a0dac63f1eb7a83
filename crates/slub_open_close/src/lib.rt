//! A round's begin and end: lists into words and back, and the transaction ids that last between
//! rounds.
//!
//! - Opening: `opening::open` takes the machine on plain lists and what stands beside it (`Beside`:
//!   transaction ids and links), and gives the setup of the round, the table of words, what the
//!   locks guard, and the rest that waits for the end of the round (`Opened`). Free pointers are
//!   laid into the machine's memory, which is then moved into the table: nothing of it is copied.
//!   The links are laid beside it and put behind it; node lists, checked slabs and the pool are
//!   moved. All memory is taken first: where none is found, the machine comes back as it was.
//! - Closing: `closing::close` takes what a round ran on, with the workers and the vectors that
//!   waited (`Rest`), and takes no memory: all is written into those vectors or moved back.
//!   Freelists are walked along the hardened free pointers, partial lists along the links. An
//!   object that a worker still holds is on the board under that worker. `specs/Reads.antt` says
//!   what is read of the words, `specs/Closing.antt` when a machine closes and into what. `undoing`
//!   puts an opened machine together again on which nothing was done.
//! - Transaction ids between rounds stand by themselves (`ids`); `Beside::of` copies them for a
//!   round, which changes them as its steps go. What any other item changes is `ids_after`
//!   (`specs/Growth.antt`): the words of a new cache begin at their first ids (`init_tid`), and a
//!   shrink, and a tune of what the partial lists of CPUs hold, change the word of each CPU with a
//!   current slab of their cache once (`flush_slab`). `growth` does this: `Due::of` looks up before
//!   an item what it may detach, and `settle` changes the ids after it; neither takes memory.
//! - Laws: `laws` on what stands beside a machine, `id_laws` on ids.
//!
//! A round's begin and end cost in proportion to the frames, the object numbers and the free
//! objects.
//!
//! # What it promises
//!
//! `open`: words, lock values and setup are those of the definitions (`IsOpened`, by
//! `slub_law_opening`), and what waits has room for the lists into which the machine closes
//! (`IsRestOf`). `close`: where the machine was opened from coherent lists and has been coherent
//! since (`IsEnded`), the lists are those into which it closes, coherent, and with all objects on
//! the board they may be opened again (`IsClosed`). `put_back`: lists on whose words nothing was
//! done (`WasOpened`) are as they were.
//!
//! `settle`: the ids after an item are `ids_after`. `FirstIdsFit`, `ItemsKeepIds`: first ids fit,
//! and an item leaves ids that fit: below 2^32, with room to detach each current slab, each its CPU
//! by the step. `Beside::of` and `Ids::first` give what fits.
#![tactic(auto)]

pub mod beside;
mod board;
mod classes;
pub mod closing;
mod cpus;
mod facts;
pub mod growth;
pub mod id_laws;
pub mod ids;
pub mod laws;
mod laying;
mod nodes;
pub mod opened;
pub mod opening;
mod slabs;
pub mod undoing;
mod values;
mod walks;
