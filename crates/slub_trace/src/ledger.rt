//! What the workers of a round did, counted.

/// What a worker did in a round.
#[derive(Clone, Copy, Debug, PartialEq, Eq)]
pub struct Ledger {
    /// The objects that it was given.
    pub given: u64,
    /// The objects that it freed.
    pub freed: u64,
    /// By order: how often no run was there for a slab of this least order.
    pub no_frames: [u64; 11],
}
