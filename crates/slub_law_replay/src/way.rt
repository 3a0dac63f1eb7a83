//! The ways in which the rounds of a replay are done.

/// How the rounds of a replay are done.
#[derive(Clone, Copy, Debug, PartialEq, Eq)]
pub enum Way {
    /// Each event to its end, in the order of the text.
    Serial,
    /// A round of two or more workers by atomic steps, in turns that are drawn from this number plus how many
    /// `round` lines were before it, modulo 2^64; a round of one worker in the order of the text (profile).
    Schedule { seed: u64 },
    /// A round of two or more workers by atomic steps, each worker in a thread of its own; a round of one worker in the
    /// order of the text (profile).
    Threads,
}
