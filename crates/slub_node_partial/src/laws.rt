//! What follows from the definitions, for the crates above. None of these does anything.

ghost use Rattle.std.specs.Prelude.{◌≡◌, ◌∷◌, length, IsPermutation};
ghost use Rattle.slub_node_partial.specs.PartialList.{IsTakenOut};
ghost use Rattle.slub_node_partial.specs.Promotion.{IsPromoted};

/// A removal leaves one list, also where the frame stands on it more than once.
pub fn removal_is_unique(before: &[u16], frame: u16, one: &[u16], other: &[u16])
    requires one { IsTakenOut before.now frame one.now }
    requires other { IsTakenOut before.now frame other.now }
    ensures { one.now ≡ other.now }
{}

/// A removal takes one slab, and neither adds nor loses another.
pub fn removal_takes_one_slab(before: &[u16], frame: u16, after: &[u16])
    requires { IsTakenOut before.now frame after.now }
    ensures { IsPermutation before.now (frame ∷ after.now) }
{}

/// Promotion leaves a list in one order, also where a frame stands on it more than once.
pub fn promotion_is_unique(frames: &[u16], counts: &[u16], one: &[u16], other: &[u16])
    requires one { IsPromoted frames.now counts.now one.now }
    requires other { IsPromoted frames.now counts.now other.now }
    ensures { one.now ≡ other.now }
{}

/// Promotion neither adds nor loses a slab.
pub fn promotion_keeps_slabs(frames: &[u16], counts: &[u16], after: &[u16])
    requires as_many { length counts.now ≡ length frames.now }
    requires promoted { IsPromoted frames.now counts.now after.now }
    ensures { IsPermutation frames.now after.now }
{}
