//! The law of rounds: any order of atomic steps gives a lawful round. Nothing runs here.
//!
//! - What a lawful round is: `specs/Round.antt` says it by the events, replies and ledgers of a
//!   finished round and by the machine before and after (`IsRound`). It speaks of no step, and of
//!   any number of workers, so a reader understands it without them. `specs/Event.antt` says what
//!   one event finds and leaves. `laws` says that the rounds of the sequential semantics are
//!   lawful.
//! - Where the bytes of checked caches come from: `specs/Contents.antt` says it by the values of
//!   the locks before and after a round and by the replies of its workers (`KeepsContents`);
//!   `specs/Law.antt` has what holds between any two steps. `content_laws` says that turns keep it.
//!   The law of the step machine (`slub_core`) says nothing of bytes, reports and objects set
//!   aside.
//! - Rounds of several workers: `specs/Ran.antt` says what it is that a round was run on words, in
//!   whatever order its workers made their turns. `cause_laws` leads from there, where calls have
//!   their replies last one first, to the words of the text: events and replies in their order,
//!   ledgers, and the lists before and after.
//!
//! # What it promises
//!
//! `laws`: `rounds_are_lawful` of sequential rounds; `given_objects_were_free`,
//! `want_of_frames_has_its_cause`, `events_spare_other_objects`. A value that is read is what its
//! worker wrote there last; of a checked object each of its bytes is the one that the worker put
//! there last, by a write or a poke, or one that was poked there under another number, whose object
//! was freed; where no byte was poked it is the word that was written
//! (`unpoked_values_were_written`).
//!
//! `content_laws`: `turns_keep_contents`, `runs_keep_contents`, `rounds_begin_with_contents`,
//! `rounds_end_with_contents`. What follows for damage, reports and reads of a round stands there,
//! and what isn't said.
//!
//! `cause_laws`: a round that can be done (`MayDo`), and that was run from coherent lists whose
//! objects are all on the board, is lawful, whatever the picks (`rounds_are_lawful`); so is one
//! whose picks a seed drew (`drawn_rounds_are_lawful`). Each reply has its cause in the text; the
//! board, the want of frames, reports and objects set aside are as the text says; the lists after
//! are coherent and at rest. That the ledgers count the replies, and that the replies in the order
//! of the text are the workers', is part of what it is to be run.
#![tactic(auto)]

pub mod cause_laws;
pub mod content_laws;
pub mod laws;
