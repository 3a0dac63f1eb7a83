//! Words as the steps read them: any number has fields.

ghost use Rattle.std.specs.Prelude.{◌≡◌, ◌+◌, ◌*◌, ◌/◌, ◌%◌, ◌^◌, ◌<◌, ◌≤◌, ◌==◌};
ghost use Rattle.slub_core.specs.Words as says;

use slub_cpu_partial::words::ListWord;
use slub_words::board::BoardWord;
use slub_words::cpu::CpuWord;
use slub_words::slab::SlabWord;

/// The sixteen bits from bit `at` on.
#[inline(always)]
fn part(word: u64, at: u32) -> u16
    requires { at ≤ 48 }
    ensures { result ≡ word / 2 ^ at % 2 ^ 16 }
{
    ((word >> at) & 0xffff) as u16
}

/// The eight bits from bit `at` on.
fn byte(word: u64, at: u32) -> u8
    requires { at ≤ 56 }
    ensures { result ≡ word / 2 ^ at % 2 ^ 8 }
{
    ((word >> at) & 0xff) as u8
}

/// Whether the bit is set.
fn bit(word: u64, at: u32) -> bool
    requires { at ≤ 63 }
    ensures { result ≡ (word / 2 ^ at % 2 == 1) }
{
    (word >> at) % 2 == 1
}

/// What the word of a cache and a CPU says.
#[tactic(auto, unfolding(crate::specs::Words::cpu_in))]
#[inline(always)]
pub fn cpu_in(word: u64) -> CpuWord
    ensures { result ≡ says.cpu_in word }
{
    CpuWord {
        tid: (word >> 32) as u32,
        frame: part(word, 16),
        head: part(word, 0),
    }
}

/// What the word of a slab says.
#[tactic(auto, unfolding(crate::specs::Words::slab_in))]
pub fn slab_in(word: u64) -> SlabWord
    ensures { result ≡ says.slab_in word }
{
    SlabWord {
        head: part(word, 0),
        inuse: part(word, 16),
        objects: part(word, 32),
        frozen: bit(word, 48),
        listed: bit(word, 49),
        cache: byte(word, 56),
    }
}

/// What the word of an object number says; None for the word 0.
#[tactic(auto, unfolding(crate::specs::Words::board_in))]
pub fn board_in(word: u64) -> Option<BoardWord>
    ensures { result ≡ says.board_in word }
{
    if word == 0 {
        return None;
    }
    Some(BoardWord {
        frame: part(word, 16),
        index: part(word, 0).saturating_sub(1),
        cache: byte(word, 32),
    })
}

/// What the word of a partial list says.
#[tactic(auto, unfolding(crate::specs::Words::list_in))]
pub fn list_in(word: u64) -> ListWord
    ensures { result ≡ says.list_in word }
{
    ListWord {
        front: part(word, 0),
        count: part(word, 16),
    }
}

/// The word of a front and a count, whatever they are.
pub fn list_bits(front: u16, count: u32) -> u64
    requires { count < 2 ^ 32 }
    ensures { result ≡ front + count * 2 ^ 16 }
{
    u64::from(front) + u64::from(count) * 65536
}
