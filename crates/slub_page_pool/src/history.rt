//! What holds over any number of calls.

ghost use Rattle.std.specs.Prelude.{ℕ};
ghost use Rattle.slub_page_pool.specs.History.{KeepsFrames, ReopensWhenAllBack, CountsDryTakes};

/// The law of a pool over every list of calls of `take`, `take_or_note` and `put` that meets their
/// conditions: after each of them every frame but frame 0 is either free or out, once; where every
/// frame is back, the pool is the opening one but for its counts; and a count is the number of
/// `take_or_note` of its order that found no block. It computes nothing.
pub fn keeps_frames()
    ensures partition { (frames : ℕ) → KeepsFrames frames }
    ensures reopens { (frames : ℕ) → ReopensWhenAllBack frames }
    ensures counts { (frames : ℕ) → CountsDryTakes frames }
{}
