//! `___slab_alloc` (`load_freelist`, `retry_load_slab`): the slab in hand becomes current.

ghost use Rattle.std.specs.Prelude.{◌≡◌, ◌+◌, ◌^◌, ◌<◌};
ghost use Rattle.slub_core.specs.Setup.{Means};
ghost use Rattle.slub_core.specs.Local.{hand_of};
ghost use Rattle.slub_core.specs.Alloc.{alloc_advance};
ghost use Rattle.slub_core.specs.Facts.{setup_of};
ghost use Rattle.slub_core.specs.Ways.{turned};
ghost use Rattle.slub_alloc_paths.specs.Fits.{HasHand};

use crate::words::{told_of_word, way_of_again};
use slub_core::setup::Setup;
use slub_core::spot::{AllocSpot, Away, Spot};
use slub_core::step::Answer;
use slub_core::ways::{hand_from, walked_on, way_of_away};
use slub_core::words::cpu_in;
use slub_core::worker_local::Local;
use slub_trace::reply::Reply;

/// The free pointer of the first object in hand was loaded (`get_freepointer`).
pub fn ready_loaded(setup: &Setup, local: &mut Local, answer: Answer) -> Option<Reply>
    requires { (hand_of local.old).length + 1 < 2 ^ 16 }
    ensures { (means : Means) → turned local.new result ≡ alloc_advance (setup_of setup.now means) local.old AllocSpot.LoadReady answer }
{
    match answer {
        Answer::Word(word) => {
            let hand = local.hand();
            let index = hand.head.saturating_sub(1);
            let found = setup.found_at(local.cache(), hand.frame, index, word);
            local.set_hand(walked_on(hand, found));
            local.at(Spot::InAlloc(AllocSpot::LoadAgain));
            None
        }
        _ => None,
    }
}

/// The CPU word was loaded again.
pub fn again_loaded(setup: &Setup, local: &mut Local, answer: Answer) -> Option<Reply>
    ensures { (means : Means) → turned local.new result ≡ alloc_advance (setup_of setup.now means) local.old AllocSpot.LoadAgain answer }
{
    match answer {
        Answer::Word(word) => {
            let word = cpu_in(word);
            let hand = local.hand();
            local.set_cpu_word(word);
            local.at(way_of_again(setup, hand, word));
            told_of_word(setup, false, word)
        }
        _ => None,
    }
}

/// The other slab was taken off the CPU, to be put away (`deactivate_slab`), or not.
pub fn other_detached(setup: &Setup, local: &mut Local, answer: Answer) -> Option<Reply>
    requires { HasHand local.old }
    ensures { (means : Means) → turned local.new result ≡ alloc_advance (setup_of setup.now means) local.old AllocSpot.DetachOther answer }
{
    match answer {
        Answer::Won => {
            let noted = local.cpu_word();
            let hand = hand_from(noted.frame, noted.head);
            local.with_hand(hand);
            local.at(way_of_away(hand, Away::ForInstall));
            None
        }
        Answer::Lost(_) => {
            local.at(Spot::InAlloc(AllocSpot::LoadAgain));
            None
        }
        _ => None,
    }
}

/// The slab in hand is current, and its first object is given (`load_freelist`), or not.
pub fn installed(setup: &Setup, local: &mut Local, answer: Answer) -> Option<Reply>
    ensures { (means : Means) → turned local.new result ≡ alloc_advance (setup_of setup.now means) local.old AllocSpot.Install answer }
{
    match answer {
        Answer::Won => {
            let hand = local.hand();
            let cache = local.cache();
            let index = hand.head.saturating_sub(1);
            local.gets(cache, hand.frame, index);
            local.less_hand();
            local.at(Spot::Between);
            Some(Reply::Given(setup.address(cache, hand.frame, index)))
        }
        Answer::Lost(_) => {
            local.at(Spot::InAlloc(AllocSpot::LoadAgain));
            None
        }
        _ => None,
    }
}
