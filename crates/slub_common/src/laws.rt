//! What follows from the definitions. None of these does anything.

ghost use Rattle.std.specs.Prelude.{◌≡◌, ◌↔◌};
ghost use Rattle.std.specs.Fmt.{decimal};
ghost use Rattle.slub_common.specs.Numbers.{Writes};

/// A number that 64 bits hold is spelled by its decimal text, and by no other word.
pub fn written_is_decimal(word: &[u8], n: u64)
    ensures { Writes word.now n ↔ (word.now ≡ decimal n) }
{}
