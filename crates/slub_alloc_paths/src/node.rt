//! `get_partial_node`, `acquire_slab`: the node list.

ghost use Rattle.std.specs.Prelude.{◌≡◌};
ghost use Rattle.slub_core.specs.Setup.{Setup};
ghost use Rattle.slub_core.specs.Alloc.{alloc_advance};
ghost use Rattle.slub_core.specs.Ways.{turned};

use crate::own::take_chain;
use slub_core::spot::{AllocSpot, PutOnList, PutOnListSpot, Spot};
use slub_core::step::Answer;
use slub_core::ways::single_string;
use slub_core::words::slab_in;
use slub_core::worker_local::Local;
use slub_trace::reply::Reply;

/// The node lock was taken, or another worker has it.
pub fn node_locked(local: &mut Local, answer: Answer) -> Option<Reply>
    ensures { (m : Setup) → turned local.new result ≡ alloc_advance m local.old AllocSpot.LockNode answer }
{
    match answer {
        Answer::Won => {
            local.set_put(0);
            local.at(Spot::InAlloc(AllocSpot::PopNode));
            None
        }
        _ => None,
    }
}

/// The slab word of the popped slab was loaded: the first one is frozen, each later one goes to the partial list.
pub fn popped_loaded(local: &mut Local, answer: Answer) -> Option<Reply>
    ensures { (m : Setup) → turned local.new result ≡ alloc_advance m local.old AllocSpot.LoadPopped answer }
{
    match answer {
        Answer::Word(word) => {
            local.set_slab_word(slab_in(word));
            if local.hand_count() == 1 {
                local.at(Spot::InAlloc(AllocSpot::FreezePopped));
            } else {
                local.at(Spot::InAlloc(AllocSpot::Unlist));
            }
            None
        }
        _ => None,
    }
}

/// The first popped slab was frozen with its whole freelist (`acquire_slab`), or not.
pub fn popped_frozen(local: &mut Local, answer: Answer) -> Option<Reply>
    ensures { (m : Setup) → turned local.new result ≡ alloc_advance m local.old AllocSpot.FreezePopped answer }
{
    match answer {
        Answer::Won => {
            take_chain(local);
            local.at(Spot::InAlloc(AllocSpot::PopNode));
            None
        }
        Answer::Lost(_) => {
            local.at(Spot::InAlloc(AllocSpot::LoadPopped));
            None
        }
        _ => None,
    }
}

/// A later popped slab was unmarked (`acquire_slab`), or not.
pub fn unlisted(local: &mut Local, answer: Answer) -> Option<Reply>
    ensures { (m : Setup) → turned local.new result ≡ alloc_advance m local.old AllocSpot.Unlist answer }
{
    match answer {
        Answer::Won => {
            let frame = local.hand().frame;
            local.less_hand();
            local.set_string(Some(single_string(frame)));
            local.at(Spot::InPutOnList(PutOnListSpot::LoadList, PutOnList::OfNode));
            None
        }
        Answer::Lost(_) => {
            local.at(Spot::InAlloc(AllocSpot::LoadPopped));
            None
        }
        _ => None,
    }
}

/// The node lock was given back.
pub fn node_given(local: &mut Local, answer: Answer) -> Option<Reply>
    ensures { (m : Setup) → turned local.new result ≡ alloc_advance m local.old AllocSpot.GiveNode answer }
{
    match answer {
        Answer::Done => {
            if local.hand_count() == 0 {
                local.at(Spot::InAlloc(AllocSpot::LockPool));
            } else {
                local.at(Spot::InAlloc(AllocSpot::LoadReady));
            }
            None
        }
        _ => None,
    }
}
