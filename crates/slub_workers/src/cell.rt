//! The cells of the table in which the words lie: apart are any two lock words, the CPU words of a cache, the list
//! words of a cache below 15, and the slab words of two frames below 512 of one block of 64.

ghost use Rattle.std.specs.Prelude.{◌≡◌, ◌<◌, ◌≤◌, length};
ghost use Rattle.slub_core.specs.Words.{list_base, cpu_base};
ghost use Rattle.slub_workers.specs.Cells.{mirrored, list_of_lock, list_cell, cell_of, by_number, LocksLieApart, CpusLieApart, SlabsLieApart};

/// The cell of the word of this number. The tests begin with the highest numbers, so only lock and list words come to the last ones.
#[tactic(auto, unfolding(crate::specs::Cells::cell_of))]
#[inline(always)]
pub(crate) fn cell(number: usize) -> usize
    ensures { result ≡ cell_of number }
{
    if number >= 1569 {
        number
    } else if number >= 1057 {
        1057 + mirrored(number - 1057)
    } else if number >= 545 {
        545 + mirrored(number - 545)
    } else if number >= 33 {
        list_cell(number - 33)
    } else {
        33 + list_of_lock(number)
    }
}

/// The number whose three octal digits are those of this one in reverse.
#[inline(always)]
fn mirrored(number: usize) -> usize
    requires { number < 512 }
    ensures { result ≡ mirrored number }
{
    number % 8 * 64 + number / 8 % 8 * 8 + number / 64
}

/// The list word, numbered among them, that exchanges its cell with this lock word. Its three octal digits are a, b, a.
#[inline(always)]
fn list_of_lock(lock: usize) -> usize
    requires { lock < 33 }
    ensures { result ≡ list_of_lock lock }
{
    (lock + 31) * 8 + (lock + 31) / 8
}

/// The cell of the list word of this number among them: the lock's, where it exchanges its cell with a lock word, and
/// otherwise the mirrored one.
#[inline(always)]
fn list_cell(number: usize) -> usize
    requires { number < 512 }
    ensures { result ≡ list_cell number }
{
    if number >= 248 && number % 8 == number / 64 {
        number / 8 - 31
    } else {
        33 + mirrored(number)
    }
}

/// Any two lock words lie at least 8 cells apart, so in different lines of 64 bytes, wherever a line begins; so do the
/// CPU words of a cache, the list words of a cache below 15, and the slab words of two frames below 512 of one block of
/// 64. This does nothing.
pub fn words_lie_apart()
    ensures locks { LocksLieApart }
    ensures cpu_words { CpusLieApart cpu_base 32 }
    ensures list_words { CpusLieApart list_base 15 }
    ensures slab_words { SlabsLieApart }
{}

/// Brings words that stand in the order of their numbers into their cells, in place, or back from there.
pub(crate) fn rearrange(words: &mut [u64])
    requires { 1569 ≤ length words.old }
    ensures { words.new ≡ by_number words.old }
{
    for number in 0..512 {
        let other = mirrored(number);
        if number < other {
            words.swap(33 + number, 33 + other);
            words.swap(545 + number, 545 + other);
            words.swap(1057 + number, 1057 + other);
        }
    }
    // The list word of a lock is its own mirror, and so still in its first place.
    for lock in 0..33 {
        words.swap(lock, 33 + list_of_lock(lock));
    }
}
