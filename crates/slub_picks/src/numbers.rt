//! Numbers within bounds.

ghost use Rattle.std.specs.Prelude.{◌≡◌, ℕ, ◌<◌, ◌≤◌, MatchOption};
ghost use Rattle.slub_picks.specs.Spelling.{IsNumber};

use slub_common::numbers::small_number;

/// The number from `least` to `most` that a text spells.
pub fn number_within(text: &[u8], least: u64, most: u64) -> Option<u64>
    ensures { MatchOption result ((n : ℕ) → ¬ IsNumber least most text.now n)
        (IsNumber least most text.now) }
{
    let n = small_number(text)?;
    if least <= n && n <= most {
        Some(n)
    } else {
        None
    }
}
