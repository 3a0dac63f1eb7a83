//! A hasher for object numbers, by which neighbours lie together.
//!
//! An index table of the kit has groups of twelve lanes, each group a line of the cache: the low
//! bits of a hash choose the group where a look-up begins, and its top eight bits are the tag by
//! which the lanes are told apart. The kit's own hasher scatters the numbers one by one. Those of
//! a trace mostly rise, and half of the time of opening a round was measured to go into misses of
//! the cache there. Here eight neighbours begin at one group, so that of numbers that rise seven
//! of eight are looked up in a line that was just touched.
//!
//! The eights themselves are scattered, and do not follow each other. If they did, numbers that
//! start anew at several powers of two, or that fill a table near to its load, would crowd into
//! one stretch of it, and each look-up would walk through that: for hundreds of groups, in a
//! simulation. Of scattered eights a look-up walked under two groups, as with the kit's hasher, on
//! average over three thousand ways of numbering by steps and by blocks, and thirteen in the worst.
//! Numbers that are picked to collide make it longer, as they do there.

ghost use Rattle.std.specs.Prelude.{◌≡◌};
ghost use Rattle.slub_calls.specs.NumberHasher.{hash_of, starts, written};

use std::hash::Hasher;

/// 2^64 divided by the golden ratio: its multiples lie apart from each other.
const SPREAD: u64 = 0x9e37_79b9_7f4a_7c15;

/// The number that was last written: a byte comes in at the top, and the lowest goes out.
#[derive(Clone, Copy)]
pub struct NumberHasher {
    number: u32,
}

impl Default for NumberHasher {
    ghost is_default = { λ h. h ≡ starts };

    fn default() -> NumberHasher {
        NumberHasher { number: 0 }
    }
}

impl Hasher for NumberHasher {
    ghost write = { written };

    ghost finish = { λ h. hash_of h.number };

    fn finish(&self) -> u64 {
        hash_of(self.number)
    }

    fn write(&mut self, bytes: &[u8]) {
        for byte in bytes {
            self.number = (self.number >> 8) + ((*byte as u32) << 24);
        }
    }

    fn write_u32(&mut self, i: u32) {
        let _before = self.number;
        self.number = i;
    }
}

/// The hash of a number, of 32 bits. Eight neighbours have one group, and tags of their own.
fn hash_of(number: u32) -> u64
    ensures { result ≡ hash_of number }
{
    let spread = (number as u64 >> 3).wrapping_mul(SPREAD);
    let group = spread >> 40;
    let tag = ((number as u64 & 7) << 5) + ((spread >> 35) & 31);
    (tag << 24) + group
}
