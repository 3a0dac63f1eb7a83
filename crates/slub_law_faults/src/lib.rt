//! What a recording settles of its conversion. Nothing runs here.
//!
//! - What is settled: `specs/Settled.antt` says which groups the caches of a recording make, which
//!   faults exclude a trace and one another, and in what two traces of one recording may differ.
//!
//! # What it promises
//!
//! `fault_laws`: on so many CPUs the caches of a recording make one grouping (`groups_are_unique`).
//! Where there is a trace (`IsConverted` of `slub_recorded`), no fault of the CPUs, of the group or of
//! the objects has a cause (`faults_exclude_traces`). Want of memory aside, of one conversion no two
//! faults of different kinds have a cause, and of one kind they tell the same numbers, but for the
//! length of a text (`faults_exclude_each_other`). Two traces of one conversion have the same lines,
//! but for their comments (`traces_differ_in_comments`). Two texts of one, however long (`IsWritten`),
//! differ in their comments alone (`texts_differ_in_comments`).
//!
//! Not promised: that a trace excludes the fault of a text that is too long. The definitions fix some
//! notes of a text (`AreShown`, `Tells` of `slub_recorded`), and leave open which others stand beside
//! them, and how many. With enough of those any text is too long.
//!
//! How it is proved: a spec has one layout, and so a cache one number of frames that it needs. Lists
//! in order are one, where each name stands as often in the one as in the other (`proofs/Sorted.antt`).
//! A cache has one group beside those before it (`proofs/Groups.antt`). Of the rows of a group only the
//! letters are open, and the slots fix those (`proofs/Rows.antt`).
#![tactic(auto)]

pub mod fault_laws;
