//! What the paths look at and leave.

ghost use Rattle.std.specs.Prelude.{◌≡◌, ◌+◌, ◌<◌, ◌^◌, nat_le, length};
ghost use Rattle.slub_core.specs.Setup.{node_lock};
ghost use Rattle.slub_core.specs.World.{frames_in};
ghost use Rattle.slub_core.specs.Local as local;
ghost use Rattle.slub_core.specs.Alloc as ways;
ghost use Rattle.slub_core.specs.Facts.{cache_of};
ghost use Rattle.slub_core.specs.Values.{values_of};
ghost use Rattle.slub_core.specs.Ways.{is_spent_by, raised_word, HasTid};

use crate::guarded::Guarded;
use crate::local::{Hand, PartialString};
use crate::setup::Setup;
use crate::spot::{Away, PutAwaySpot, Spot};
use crate::values;
use crate::worker_local::Local;
use slub_words::cpu::CpuWord;

/// Whether no object is taken or put under the word's transaction id any more (profile).
#[inline(always)]
pub fn is_spent(setup: &Setup, word: CpuWord) -> bool
    ensures { result ≡ is_spent_by setup.now.step word }
{
    word.tid > u32::MAX - 2 * setup.step()
}

/// The noted word of a CPU with its transaction id raised (`next_tid`) and this slab.
#[inline(always)]
pub fn raised_word(setup: &Setup, local: &Local, frame: u16, head: u16) -> CpuWord
    requires { HasTid setup.now.step local.now }
    ensures { result ≡ raised_word setup.now.step local.now frame head }
{
    CpuWord {
        tid: local.cpu_word().tid + setup.step(),
        frame,
        head,
    }
}

/// A slab in hand with a chain from a head.
pub fn hand_from(frame: u16, head: u16) -> Hand
    ensures { result ≡ local.hand_from frame head }
{
    Hand {
        frame,
        head,
        last: 0,
        length: 0,
        walked: false,
    }
}

/// A slab in hand with no chain.
pub fn bare_hand(frame: u16) -> Hand
    ensures { result ≡ local.bare_hand frame }
{
    hand_from(frame, 0)
}

/// A string of so many slabs from a front on, of which the last leads to nothing.
pub fn taken_string(front: u16, count: u16) -> PartialString
    ensures { result ≡ ways.taken_string front count }
{
    PartialString {
        front,
        count,
        cursor: front,
        place: 1,
        link: Some(0),
    }
}

/// A string of one slab, of which nobody knows where it leads.
pub fn single_string(frame: u16) -> PartialString
    ensures { result ≡ ways.single_string frame }
{
    PartialString {
        front: frame,
        count: 1,
        cursor: frame,
        place: 1,
        link: None,
    }
}

/// To where a slab is put away: along its chain where the end isn't known.
pub fn way_of_away(hand: Hand, away: Away) -> Spot
    ensures { result ≡ ways.way_of_away hand away }
{
    if hand.head == 0 || hand.walked {
        Spot::InPutAway(PutAwaySpot::LockAway, away)
    } else {
        Spot::InPutAway(PutAwaySpot::WalkChain, away)
    }
}

/// The object that a walk along a chain in hand has come to, as an index plus one.
pub fn reached(hand: Hand) -> u16
    ensures { result ≡ ways.reached hand }
{
    if hand.length == 0 {
        hand.head
    } else {
        hand.last
    }
}

/// A walk finds what that object leads to: nothing, or one object more.
pub fn walked_on(hand: Hand, found: u16) -> Hand
    requires { hand.length + 1 < 2 ^ 16 }
    ensures { result ≡ ways.walked_on hand found }
{
    if found == 0 {
        return Hand {
            last: reached(hand),
            length: if hand.length == 0 { 1 } else { hand.length },
            walked: true,
            ..hand
        };
    }
    Hand {
        last: found,
        length: if hand.length == 0 { 2 } else { hand.length + 1 },
        ..hand
    }
}

/// Whether a cache's node list has as many slabs as it is to keep (`min_partial`).
pub fn has_enough(setup: &Setup, values: &[Guarded], cache: u8) -> bool
    ensures { result ≡ nat_le (cache_of setup.now cache).layout.min_partial (length (frames_in (values_of values.now (node_lock cache)))) }
{
    setup.layout(cache).min_partial as usize <= values::node(values, cache).len()
}
