//! `get_freelist`: the current slab's own freelist.

ghost use Rattle.std.specs.Prelude.{◌≡◌};
ghost use Rattle.slub_core.specs.Setup.{Setup};
ghost use Rattle.slub_core.specs.Local.{hand_of, hand_from, set_hand};
ghost use Rattle.slub_core.specs.Alloc.{alloc_advance};
ghost use Rattle.slub_core.specs.Ways.{turned};
ghost use Rattle.slub_alloc_paths.specs.Fits.{HasHand};

use crate::words::way_of_taken;
use slub_core::spot::{AllocSpot, Spot};
use slub_core::step::Answer;
use slub_core::ways::hand_from;
use slub_core::words::slab_in;
use slub_core::worker_local::Local;
use slub_trace::reply::Reply;

/// The slab was taken off the CPU (`deactivate_slab`), or not.
pub fn detached(local: &mut Local, answer: Answer) -> Option<Reply>
    requires { HasHand local.old }
    ensures { (m : Setup) → turned local.new result ≡ alloc_advance m local.old AllocSpot.Detach answer }
{
    match answer {
        Answer::Won => {
            let noted = local.cpu_word();
            local.with_hand(hand_from(noted.frame, noted.head));
            local.at(Spot::InAlloc(AllocSpot::LoadTaken));
            None
        }
        Answer::Lost(_) => {
            local.at(Spot::InAlloc(AllocSpot::LoadCpu));
            None
        }
        _ => None,
    }
}

/// The slab word was loaded.
pub fn taken_loaded(local: &mut Local, answer: Answer) -> Option<Reply>
    ensures { (m : Setup) → turned local.new result ≡ alloc_advance m local.old AllocSpot.LoadTaken answer }
{
    match answer {
        Answer::Word(word) => {
            let slab = slab_in(word);
            local.set_slab_word(slab);
            local.at(way_of_taken(slab));
            None
        }
        _ => None,
    }
}

/// The slab's whole freelist was taken, or not.
pub fn all_taken(local: &mut Local, answer: Answer) -> Option<Reply>
    ensures { (m : Setup) → turned local.new result ≡ alloc_advance m local.old AllocSpot.TakeAll answer }
{
    match answer {
        Answer::Won => {
            take_chain(local);
            local.at(Spot::InAlloc(AllocSpot::LoadReady));
            None
        }
        Answer::Lost(_) => {
            local.at(Spot::InAlloc(AllocSpot::LoadTaken));
            None
        }
        _ => None,
    }
}

/// The full slab was unfrozen, or not.
pub fn full_marked(local: &mut Local, answer: Answer) -> Option<Reply>
    ensures { (m : Setup) → turned local.new result ≡ alloc_advance m local.old AllocSpot.MarkFull answer }
{
    match answer {
        Answer::Won => {
            local.less_hand();
            local.at(Spot::InAlloc(AllocSpot::TakeList));
            None
        }
        Answer::Lost(_) => {
            local.at(Spot::InAlloc(AllocSpot::LoadTaken));
            None
        }
        _ => None,
    }
}

/// The chain of the noted slab word is in hand.
pub fn take_chain(local: &mut Local)
    ensures { local.new ≡ set_hand local.old (hand_from (hand_of local.old).frame local.old.slab_word.head) }
{
    let frame = local.hand().frame;
    let head = local.slab_word().head;
    local.set_hand(hand_from(frame, head));
}
