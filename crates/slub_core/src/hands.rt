//! The slabs that a worker has in hand.

ghost use Rattle.std.specs.Prelude.{◌≡◌, ◌<◌, ◌∷◌, length, drop, slice_index_or, slice_set};
ghost use Rattle.slub_core.specs.Local.{no_hand};
ghost use Rattle.slub_core.specs.Hands.{hands_of};

use crate::local::Hand;

/// Two slabs at most, the one that was taken last first.
#[derive(Clone, Copy, Debug, PartialEq, Eq)]
pub enum Hands {
    Empty,
    One(Hand),
    Two(Hand, Hand),
}

/// No slab.
pub const NO_HAND: Hand = Hand {
    frame: 0,
    head: 0,
    last: 0,
    length: 0,
    walked: false,
};

impl Hands {
    /// How many there are.
    pub fn len(self) -> usize
        ensures { result ≡ length (hands_of self) }
    {
        match self {
            Hands::Empty => 0,
            Hands::One(_) => 1,
            Hands::Two(_, _) => 2,
        }
    }

    /// The slab that was taken last.
    pub fn first(self) -> Hand
        ensures { result ≡ slice_index_or (hands_of self) 0 no_hand }
    {
        match self {
            Hands::Empty => NO_HAND,
            Hands::One(hand) | Hands::Two(hand, _) => hand,
        }
    }

    /// The one beside it.
    pub fn beside(self) -> Hand
        ensures { result ≡ slice_index_or (hands_of self) 1 no_hand }
    {
        match self {
            Hands::Empty | Hands::One(_) => NO_HAND,
            Hands::Two(_, beside) => beside,
        }
    }

    /// With one slab more.
    pub fn with(self, hand: Hand) -> Hands
        requires { length (hands_of self) < 2 }
        ensures { hands_of result ≡ hand ∷ hands_of self }
    {
        match self {
            Hands::Empty => Hands::One(hand),
            Hands::One(beside) => Hands::Two(hand, beside),
            Hands::Two(_, _) => unreachable!(),
        }
    }

    /// With this in the place of the last taken one.
    pub fn with_first(self, hand: Hand) -> Hands
        ensures { hands_of result ≡ slice_set (hands_of self) 0 hand }
    {
        match self {
            Hands::Empty => Hands::Empty,
            Hands::One(_) => Hands::One(hand),
            Hands::Two(_, beside) => Hands::Two(hand, beside),
        }
    }

    /// Without the one that was taken last.
    pub fn less(self) -> Hands
        ensures { hands_of result ≡ drop 1 (hands_of self) }
    {
        match self {
            Hands::Empty | Hands::One(_) => Hands::Empty,
            Hands::Two(_, beside) => Hands::One(beside),
        }
    }
}
