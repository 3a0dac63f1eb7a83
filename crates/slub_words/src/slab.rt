//! The word of a slab.

ghost use Rattle.std.specs.Prelude.{◌≡◌, MatchOption};
ghost use Rattle.slub_words.specs.Words.{slab_bits, IsSlabWord};

use crate::parts::{join, part};

/// A slab's own freelist, its counts and its marks (`struct slab`).
#[derive(Clone, Copy, Debug, PartialEq, Eq)]
pub struct SlabWord {
    /// The index plus one of the first object of the slab's own freelist; 0 for none.
    pub head: u16,
    /// The objects that are not on that freelist.
    pub inuse: u16,
    /// The objects of the slab.
    pub objects: u16,
    /// The slab is some CPU's current one, or in a worker's hand.
    pub frozen: bool,
    /// The slab stands on its node's list.
    pub listed: bool,
    /// The number of the slab's cache.
    pub cache: u8,
}

impl SlabWord {
    /// The word of these fields.
    pub fn pack(self) -> u64
        ensures bits { result ≡ slab_bits self }
        ensures word { IsSlabWord result }
    {
        let marks = u16::from(self.frozen) + 2 * u16::from(self.listed);
        let high = 256 * u64::from(self.cache) + u64::from(marks);
        join(join(join(high, self.objects), self.inuse), self.head)
    }

    /// The fields of a word; None where one of the bits 50 to 55 is set.
    pub fn unpack(word: u64) -> Option<SlabWord>
        ensures { MatchOption result (¬ IsSlabWord word) (λ slab. IsSlabWord word × (slab_bits slab ≡ word)) }
    {
        let marks = part(word, 48) % 256;
        if marks > 3 {
            return None;
        }
        Some(SlabWord {
            head: part(word, 0),
            inuse: part(word, 16),
            objects: part(word, 32),
            frozen: marks % 2 == 1,
            listed: marks / 2 == 1,
            cache: (word >> 56) as u8,
        })
    }
}
