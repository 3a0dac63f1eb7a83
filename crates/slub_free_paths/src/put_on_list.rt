//! `put_cpu_partial`: putting a string of slabs before a CPU's partial list, without a lock.

ghost use Rattle.std.specs.Prelude.{◌≡◌};
ghost use Rattle.slub_core.specs.PutOnList as put_on_list;
ghost use Rattle.slub_core.specs.Local.{goes};
ghost use Rattle.slub_free_paths.specs.Fits.{PutOnListFits};

use slub_core::local::PartialString;
use slub_core::ops;
use slub_core::spot::{AllocSpot, PutOnList, PutOnListSpot, Spot};
use slub_core::step::{Answer, Step};
use slub_core::words::list_in;
use slub_core::worker_local::Local;

/// The step that a spot of it calls for.
#[inline(always)]
pub fn put_on_list_step(local: &Local, spot: PutOnListSpot) -> Step
    ensures { result ≡ put_on_list.put_on_list_step local.now spot }
{
    let string = local.string_or_none();
    match spot {
        PutOnListSpot::LoadList => ops::load_list(local),
        PutOnListSpot::WalkString => ops::load_link(string.cursor),
        PutOnListSpot::LinkString => ops::store_link(string.cursor, local.list_word().front),
        PutOnListSpot::PushString => {
            let count = u32::from(local.list_word().count) + u32::from(string.count);
            ops::change_list(local, string.front, count)
        }
    }
}

/// Where the answer to that step leads.
#[inline(always)]
pub fn put_on_list_advance(local: &mut Local, spot: PutOnListSpot, put: PutOnList, answer: Answer)
    requires { PutOnListFits local.old spot put }
    ensures { goes local.new ≡ put_on_list.put_on_list_advance local.old spot put answer }
{
    match (spot, answer) {
        (PutOnListSpot::LoadList, Answer::Word(x)) => list_loaded(local, put, x),
        (PutOnListSpot::WalkString, Answer::Word(x)) => string_walked(local, put, x),
        (PutOnListSpot::LinkString, Answer::Done) => string_linked(local, put),
        (PutOnListSpot::PushString, Answer::Won) => string_pushed(local, put),
        (PutOnListSpot::PushString, Answer::Lost(_)) => {
            local.at(Spot::InPutOnList(PutOnListSpot::LoadList, put));
        }
        _ => {}
    }
}

/// The list word is noted; nothing is stored where the string leads to the list's front already.
fn list_loaded(local: &mut Local, put: PutOnList, x: u64)
    ensures { goes local.new ≡ put_on_list.put_on_list_advance local.old PutOnListSpot.LoadList put (Answer.Word x) }
{
    let list = list_in(x);
    let string = local.string_or_none();
    local.set_list_word(list);
    if leads_to(string.link, list.front) {
        local.at(Spot::InPutOnList(PutOnListSpot::PushString, put));
    } else {
        local.at(way_of_string(string, put));
    }
}

/// The last link is known to lead to this frame, or to nothing where the frame is 0.
fn leads_to(link: Option<u16>, front: u16) -> bool
    ensures { result ≡ put_on_list.leads_to link front }
{
    match link {
        None => false,
        Some(link) => link == front,
    }
}

/// The walk goes on, or has come to the last slab of the string.
fn way_of_string(string: PartialString, put: PutOnList) -> Spot
    ensures { result ≡ put_on_list.way_of_string string put }
{
    if string.place < string.count {
        Spot::InPutOnList(PutOnListSpot::WalkString, put)
    } else {
        Spot::InPutOnList(PutOnListSpot::LinkString, put)
    }
}

/// The walk has come to the next slab.
fn string_walked(local: &mut Local, put: PutOnList, x: u64)
    requires { PutOnListFits local.old PutOnListSpot.WalkString put }
    ensures { goes local.new ≡ put_on_list.put_on_list_advance local.old PutOnListSpot.WalkString put (Answer.Word x) }
{
    let string = local.string_or_none();
    let string = PartialString {
        cursor: (x % 65536) as u16,
        place: string.place + 1,
        ..string
    };
    local.set_string(Some(string));
    local.at(way_of_string(string, put));
}

/// The last link leads to the noted front.
fn string_linked(local: &mut Local, put: PutOnList)
    ensures { goes local.new ≡ put_on_list.put_on_list_advance local.old PutOnListSpot.LinkString put Answer.Done }
{
    let string = PartialString {
        link: Some(local.list_word().front),
        ..local.string_or_none()
    };
    local.set_string(Some(string));
    local.at(Spot::InPutOnList(PutOnListSpot::PushString, put));
}

/// The slabs leave the hand.
fn string_pushed(local: &mut Local, put: PutOnList)
    requires { PutOnListFits local.old PutOnListSpot.PushString put }
    ensures { goes local.new ≡ put_on_list.put_on_list_advance local.old PutOnListSpot.PushString put Answer.Won }
{
    local.set_string(None);
    match put {
        PutOnList::OfRest => local.at(Spot::InAlloc(AllocSpot::LoadKept)),
        PutOnList::OfNode => {
            local.set_put(local.put() + 1);
            local.at(Spot::InAlloc(AllocSpot::PopNode));
        }
        PutOnList::OfFree => local.at(Spot::Between),
    }
}
