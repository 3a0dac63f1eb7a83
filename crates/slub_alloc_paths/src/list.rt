//! `___slab_alloc` (`slub_percpu_partial`): the CPU's partial list.

ghost use Rattle.std.specs.Prelude.{◌≡◌};
ghost use Rattle.slub_core.specs.Setup.{Setup};
ghost use Rattle.slub_core.specs.Alloc.{alloc_advance};
ghost use Rattle.slub_core.specs.Ways.{turned};
ghost use Rattle.slub_alloc_paths.specs.Fits.{HasHand};

use crate::own::take_chain;
use crate::words::{string_of_list, way_of_list};
use slub_core::spot::{AllocSpot, PutOnList, PutOnListSpot, Spot};
use slub_core::step::Answer;
use slub_core::ways::{bare_hand, taken_string};
use slub_core::words::{list_in, slab_in};
use slub_core::worker_local::Local;
use slub_trace::reply::Reply;

/// The list was taken.
pub fn list_taken(local: &mut Local, answer: Answer) -> Option<Reply>
    requires { HasHand local.old }
    ensures { (m : Setup) → turned local.new result ≡ alloc_advance m local.old AllocSpot.TakeList answer }
{
    match answer {
        Answer::Word(word) => {
            let list = list_in(word);
            if list.count == 1 {
                local.with_hand(bare_hand(list.front));
            }
            local.set_string(string_of_list(list));
            local.at(way_of_list(list));
            None
        }
        _ => None,
    }
}

/// The link of the front was loaded: only now the front leaves the string, since the front of the rest is known
/// (`slub_set_percpu_partial`).
pub fn front_followed(local: &mut Local, answer: Answer) -> Option<Reply>
    requires { HasHand local.old }
    ensures { (m : Setup) → turned local.new result ≡ alloc_advance m local.old AllocSpot.FollowFront answer }
{
    match answer {
        Answer::Word(word) => {
            let string = local.string_or_none();
            let rest = taken_string((word & 0xffff) as u16, string.count.saturating_sub(1));
            local.with_hand(bare_hand(string.front));
            local.set_string(Some(rest));
            local.at(Spot::InPutOnList(PutOnListSpot::LoadList, PutOnList::OfRest));
            None
        }
        _ => None,
    }
}

/// The slab word of the front was loaded (`get_freelist`).
pub fn kept_loaded(local: &mut Local, answer: Answer) -> Option<Reply>
    ensures { (m : Setup) → turned local.new result ≡ alloc_advance m local.old AllocSpot.LoadKept answer }
{
    match answer {
        Answer::Word(word) => {
            local.set_slab_word(slab_in(word));
            local.at(Spot::InAlloc(AllocSpot::FreezeKept));
            None
        }
        _ => None,
    }
}

/// The front was frozen with its whole freelist, or not.
pub fn kept_frozen(local: &mut Local, answer: Answer) -> Option<Reply>
    ensures { (m : Setup) → turned local.new result ≡ alloc_advance m local.old AllocSpot.FreezeKept answer }
{
    match answer {
        Answer::Won => {
            take_chain(local);
            local.at(Spot::InAlloc(AllocSpot::LoadReady));
            None
        }
        Answer::Lost(_) => {
            local.at(Spot::InAlloc(AllocSpot::LoadKept));
            None
        }
        _ => None,
    }
}
