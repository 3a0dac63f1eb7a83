//! Words that stand elsewhere, and are read from there.

ghost use Rattle.std.specs.Prelude.{◌≡◌, ◌≢◌, ◌+◌, ◌-◌, ◌<◌, ◌≤◌, ◌++◌, length, replicate, slice_index_or, vec_capacity};
ghost use Rattle.std.specs.List.{slice_range};

/// Words that are read by their places.
pub trait Words {
    ghost use Rattle.std.specs.Prelude.{◌≡◌, ◌<◌, ℕ, List, length, slice_index_or};

    /// All of them.
    ghost all: { Self → List ℕ };

    /// The word at a place.
    fn word(&self, at: usize) -> u64
        requires { at < length (all self.now) }
        ensures { result ≡ slice_index_or (all self.now) at 0 };
}

/// The place behind the last of these words that isn't 0; the first place where there is none.
pub(crate) fn reach_of<W: Words>(words: &W, from: usize, end: usize) -> usize
    requires { (from ≤ end) × (end ≤ length (W.all words.now)) }
    ensures inside { (from ≤ result) × (result ≤ end) }
    ensures zeros { slice_range (W.all words.now) from result ++ replicate (end - result) 0 ≡ slice_range (W.all words.now) from end }
    ensures last { from < result → slice_index_or (W.all words.now) (result - 1) 0 ≢ 0 }
{
    let mut reach = end;
    while reach > from && words.word(reach - 1) == 0 {
        reach -= 1;
    }
    reach
}

/// Puts the words of these places behind others, for which there is room.
pub fn put_words<W: Words>(items: &mut Vec<u64>, words: &W, from: usize, end: usize)
    requires places { (from ≤ end) × (end ≤ length (W.all words.now)) }
    requires room { length items.old.items + (end - from) ≤ vec_capacity items.old }
    ensures words { items.new.items ≡ items.old.items ++ slice_range (W.all words.now) from end }
    ensures capacity { vec_capacity items.new ≡ vec_capacity items.old }
{
    for at in from..end {
        items.push_reserved(words.word(at));
    }
}
