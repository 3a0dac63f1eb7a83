//! What is asked, and what any machine answers: the items, rounds and events of a trace, and
//! replies.
//!
//! - What is asked: `event` has the acts of workers (an allocation, a free, a trim, ..), events and
//!   rounds; `trace` has a `Trace`, which is a machine and the items that it is to do, those of
//!   clients among them; `classes` has the names of the caches that a `kmalloc` line creates.
//! - What is answered, be it by plain lists or by words: `reply` and `damage` to an event, `ledger`
//!   of a worker's round, `create`, `destroy` and `tune` to what is asked between rounds.
//!   (Shrinking answers whether slabs remain, or `NoSuchCache` of `slub_common`.)
//! - Definitions: `specs/Sound.antt` says what holds of every trace, `Ranges` which ranges its
//!   numbers have, `Names` what a name is, byte by byte; `Kinds` says by what kind of reply the rest
//!   of the repository tells replies apart.
//!
//! The types stand here and not with the reader, the layouts or a machine: a change of how a trace
//! is read, or of how an event lies in memory, touches what reads and journals it, and no step of
//! the allocator.
//!
//! # What it promises
//!
//! The types `Trace`, `Item`, `Client`, `Round`, `Event` and `Act`, those of replies, ledgers,
//! answers and refusals, and the kinds of replies (`kind_of`); and `class_name`.
//!
//! `IsSound` (`specs/Sound.antt`) holds of every trace that is read or made: numbers are in their
//! ranges, a read is of a word that its worker wrote, and no object number is allocated twice.
#![tactic(auto)]

pub mod classes;
pub mod create;
pub mod damage;
pub mod destroy;
pub mod event;
pub mod ledger;
pub mod reply;
pub mod trace;
pub mod tune;
