//! The word of an object number.

ghost use Rattle.std.specs.Prelude.{◌≡◌, ◌<◌, IfSome, MatchOption};
ghost use Rattle.slub_words.specs.Words.{board_bits, IsBoardWord};

use crate::parts::{join, part};

/// Where a held object stands (*profile*). The word 0 is no object.
#[derive(Clone, Copy, Debug, PartialEq, Eq)]
pub struct BoardWord {
    /// The first frame of the slab.
    pub frame: u16,
    /// The object's place in the slab, below 65535.
    pub index: u16,
    /// The number of the cache.
    pub cache: u8,
}

impl BoardWord {
    /// The word of these fields.
    pub fn pack(self) -> u64
        requires { self.index < 65535 }
        ensures bits { result ≡ board_bits self }
        ensures word { IsBoardWord result }
    {
        join(join(u64::from(self.cache), self.frame), self.index + 1)
    }

    /// The fields of a word; None where a bit above 39 is set, or the word has no object.
    pub fn unpack(word: u64) -> Option<BoardWord>
        ensures word { MatchOption result (¬ IsBoardWord word) (λ board. IsBoardWord word × (board_bits board ≡ word)) }
        ensures small { IfSome result (λ board. board.index < 65535) }
    {
        let place = part(word, 0);
        if word >> 40 != 0 || place == 0 {
            return None;
        }
        Some(BoardWord {
            frame: part(word, 16),
            index: place - 1,
            cache: (word >> 32) as u8,
        })
    }
}
