//! What holds of the bytes of checked caches in a round, for the crates that run one. None of these
//! does anything.
//!
//! So in a round:
//!
//! - each new report, and each free that is answered Corrupt, tells of a byte that isn't the wanted
//!   one, and that stood there before the round or was put there by a poke that was answered Poked;
//! - a new report is of an object that is set aside, and an object is set aside only with such a
//!   report of its slab;
//! - a read of a checked object gives, byte by byte, what its worker put there last under this
//!   number, by a write or a poke, or a byte that was poked there under another number; where its
//!   worker put nothing there since it took the object from the board, a byte that stood there
//!   before the round or was poked there.
//!
//! Nothing is said of bytes that its worker never put anything to since it was given the object in
//! the round; nor that a damage is found; nor of flags.

ghost use Rattle.slub_law_rounds.specs.Law.{TurnsKeepContents, RunsKeepContents, RoundsBeginWithContents, RoundsEndWithContents};

/// From a machine that is coherent, and whose bytes, reports and objects set aside have their causes, the turn of
/// any worker leads to one in which they have.
pub fn turns_keep_contents()
    ensures { TurnsKeepContents }
{}

/// So does a run of turns, in whatever order the workers make them.
pub fn runs_keep_contents()
    ensures { RunsKeepContents }
{}

/// A round begins so.
pub fn rounds_begin_with_contents()
    ensures { RoundsBeginWithContents }
{}

/// And it ends so: what a reader understands without the steps (`KeepsContents`).
pub fn rounds_end_with_contents()
    ensures { RoundsEndWithContents }
{}
