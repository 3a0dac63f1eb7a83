//! What holds of the bytes of checked caches that are off, before a round and after it. None of
//! these does anything.
//!
//! `slub_law_rounds` says of a byte that is told of that it stood there before the round, or was
//! poked. That isn't enough for many rounds: a byte may stand there and be as it should be, and be
//! told of after its object was given or taken back. Here it is said of bytes that are off, those
//! that a call on the slabs would tell of: each one after the round, and each one that the round
//! tells of, was off before it at the same address, or was put there by a poke that was answered
//! Poked (`KeepsOff`).

ghost use Rattle.slub_law_replay.specs.Off.{RoundsEndWithPokes};

/// After any turns of a round each byte that is off was off before the round or was poked in it, and so was each byte
/// that a report tells of, or a free that was answered Corrupt.
pub fn rounds_end_with_pokes()
    ensures { RoundsEndWithPokes }
{}
