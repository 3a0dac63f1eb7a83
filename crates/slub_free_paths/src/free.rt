//! `do_slab_free`, `__slab_free`: the free of an object of an unchecked cache.

ghost use Rattle.std.specs.Prelude.{◌≡◌, ◌<◌, ◌==◌, ◌&&◌, not, nat_lt, nat_le, length, if◌then◌else◌, None};
ghost use Rattle.slub_object_layout.specs.Layout.{address_of};
ghost use Rattle.slub_core.specs.Setup.{Means};
ghost use Rattle.slub_core.specs.Free as free;
ghost use Rattle.slub_core.specs.Local.{here, at, goes, loses};
ghost use Rattle.slub_core.specs.Facts.{setup_of, cache_of};
ghost use Rattle.slub_core.specs.Values.{values_of, rooms_of};
ghost use Rattle.slub_free_paths.specs.Fits.{FreeFits, TakesOff};
ghost use Rattle.slub_core.specs.Ways.{turned, is_spent_by, changed};

use crate::lists::take_off;
use slub_core::call::CallKind;
use slub_core::guarded::Guarded;
use slub_core::ops;
use slub_core::setup::Setup;
use slub_core::spot::{
    CheckedSpot, Discard, DiscardSpot, FreeSpot, MoveSet, MoveSetSpot, PutOnList, PutOnListSpot,
    Spot,
};
use slub_core::step::{Answer, Step};
use slub_core::ways::{bare_hand, has_enough, is_spent, raised_word, single_string, taken_string};
use slub_core::words::{board_in, cpu_in, list_in, slab_in};
use slub_core::worker_local::Local;
use slub_cpu_partial::words::ListWord;
use slub_trace::reply::Reply;
use slub_words::board::BoardWord;
use slub_words::cpu::CpuWord;
use slub_words::slab::SlabWord;

/// The step that a spot of a free calls for.
#[inline(always)]
pub fn free_step(setup: &Setup, local: &Local, spot: FreeSpot) -> Step
    requires { FreeFits setup.now.step local.now spot }
    ensures { (means : Means) → result ≡ free.free_step (setup_of setup.now means) local.now spot }
{
    match spot {
        FreeSpot::TakeBoard => ops::take_board(local),
        FreeSpot::LoadOwn => ops::load_cpu(local),
        FreeSpot::LinkOwn => ops::link_object(setup, local, local.cpu_word().head),
        FreeSpot::Push => {
            let word = raised_word(setup, local, local.cpu_word().frame, local.here().index + 1);
            ops::change_cpu(local, word)
        }
        FreeSpot::LoadSlab => ops::load_slab(local.here().frame),
        FreeSpot::LinkSlab => ops::link_object(setup, local, local.slab_word().head),
        FreeSpot::FreeSlab => ops::change_slab(local, local.here().frame, freed_word(local)),
        FreeSpot::LockFree => ops::take_node(local),
        FreeSpot::LoadLocked => ops::load_slab(local.here().frame),
        FreeSpot::GoBack => ops::give_node(local),
        FreeSpot::LinkLocked => ops::link_object(setup, local, local.slab_word().head),
        FreeSpot::FreeLocked => ops::change_slab(local, local.here().frame, freed_word(local)),
        FreeSpot::TakeOff => ops::no_step(),
        FreeSpot::GiveFree => ops::give_node(local),
        FreeSpot::LoadCount => ops::load_list(local),
        FreeSpot::TakeSet => ops::take_list(local),
    }
}

/// The slab word with the object as the head of its freelist, and one object less in use.
fn freed_word(local: &Local) -> SlabWord
    requires { (here local.now).index < 65535 }
    ensures { result ≡ free.freed_word local.now }
{
    let word = local.slab_word();
    SlabWord {
        head: local.here().index + 1,
        inuse: word.inuse.saturating_sub(1),
        ..word
    }
}

/// Where the answer to that step leads, and the reply that the call has by it.
#[inline(always)]
pub fn free_advance(
    setup: &Setup,
    local: &mut Local,
    spot: FreeSpot,
    answer: Answer,
) -> Option<Reply>
    requires { length local.old.hands < 2 }
    ensures { (means : Means) → turned local.new result ≡ free.free_advance (setup_of setup.now means) local.old spot answer }
{
    match (spot, answer) {
        (FreeSpot::TakeBoard, Answer::Word(x)) => board_taken(setup, local, board_in(x)),
        (FreeSpot::LoadOwn, Answer::Word(x)) => own_loaded(setup, local, cpu_in(x)),
        (FreeSpot::LinkOwn, Answer::Done) => go(local, FreeSpot::Push),
        (FreeSpot::Push, Answer::Won) => Some(freed(setup, local, Spot::Between)),
        (FreeSpot::Push, Answer::Lost(_)) => go(local, FreeSpot::LoadOwn),
        (FreeSpot::LoadSlab, Answer::Word(x)) => slab_loaded(local, slab_in(x)),
        (FreeSpot::LinkSlab, Answer::Done) => go(local, FreeSpot::FreeSlab),
        (FreeSpot::FreeSlab, Answer::Won) => Some(slab_freed(setup, local)),
        (FreeSpot::FreeSlab, Answer::Lost(_)) => go(local, FreeSpot::LoadSlab),
        (FreeSpot::LockFree, Answer::Won) => go(local, FreeSpot::LoadLocked),
        (FreeSpot::LoadLocked, Answer::Word(x)) => slab_locked(local, slab_in(x)),
        (FreeSpot::GoBack, Answer::Done) => go(local, FreeSpot::LoadSlab),
        (FreeSpot::LinkLocked, Answer::Done) => go(local, FreeSpot::FreeLocked),
        (FreeSpot::FreeLocked, Answer::Won) => {
            Some(freed(setup, local, Spot::InFree(FreeSpot::TakeOff)))
        }
        (FreeSpot::FreeLocked, Answer::Lost(_)) => go(local, FreeSpot::LoadLocked),
        (FreeSpot::GiveFree, Answer::Done) => {
            local.at(Spot::Between);
            None
        }
        (FreeSpot::LoadCount, Answer::Word(x)) => count_loaded(setup, local, list_in(x)),
        (FreeSpot::TakeSet, Answer::Word(x)) => set_taken(local, list_in(x)),
        _ => None,
    }
}

/// The worker goes to a spot of the free.
fn go(local: &mut Local, spot: FreeSpot) -> Option<Reply>
    ensures { turned local.new result ≡ goes (at local.old (Spot.InFree spot)) }
{
    local.at(Spot::InFree(spot));
    None
}

/// What was on the board goes the way of its cache; else nobody holds the object.
fn board_taken(setup: &Setup, local: &mut Local, word: Option<BoardWord>) -> Option<Reply>
    ensures { (means : Means) → turned local.new result ≡ free.board_taken (setup_of setup.now means) local.old word }
{
    match word {
        None => {
            local.at(Spot::Between);
            Some(Reply::NotHeld)
        }
        Some(word) => {
            local.gets(word.cache, word.frame, word.index);
            local.set_cache(word.cache);
            local.at(way_of_board(setup.checks(word.cache)));
            None
        }
    }
}

/// Where what was on the board goes, by whether its cache is checked.
fn way_of_board(checks: bool) -> Spot
    ensures { result ≡ (if checks then Spot.InChecked CheckedSpot.LockChecked CallKind.Free else Spot.InFree FreeSpot.LoadOwn) }
{
    if checks {
        Spot::InChecked(CheckedSpot::LockChecked, CallKind::Free)
    } else {
        Spot::InFree(FreeSpot::LoadOwn)
    }
}

/// To the CPU freelist, where the object's slab is current and the transaction id isn't spent
/// (`likely(slab == c->slab)`).
fn own_loaded(setup: &Setup, local: &mut Local, word: CpuWord) -> Option<Reply>
    ensures { turned local.new result ≡ goes (record local.old { cpu_word = word; spot = (if (word.frame == (here local.old).frame) && not (is_spent_by setup.now.step word) then Spot.InFree FreeSpot.LinkOwn else Spot.InFree FreeSpot.LoadSlab) }) }
{
    let frame = local.here().frame;
    local.set_cpu_word(word);
    if word.frame == frame && !is_spent(setup, word) {
        go(local, FreeSpot::LinkOwn)
    } else {
        go(local, FreeSpot::LoadSlab)
    }
}

/// The object is free: the worker holds it no more, and goes on at this spot.
fn freed(setup: &Setup, local: &mut Local, spot: Spot) -> Reply
    ensures local { local.new ≡ at (loses local.old) spot }
    ensures reply { result ≡ Reply.Freed (address_of (here local.old).frame (here local.old).index (cache_of setup.now (here local.old).cache).layout) }
{
    let here = local.here();
    local.loses();
    local.at(spot);
    Reply::Freed(setup.address(here.cache, here.frame, here.index))
}

/// The slab word leads to the node lock, where the object is a listed slab's last one in use.
fn slab_loaded(local: &mut Local, word: SlabWord) -> Option<Reply>
    ensures { turned local.new result ≡ goes (record local.old { slab_word = word; spot = free.way_of_slab word }) }
{
    local.set_slab_word(word);
    if is_last_listed(word) {
        go(local, FreeSpot::LockFree)
    } else {
        go(local, FreeSpot::LinkSlab)
    }
}

/// The second look under the node lock: it is given back where the slab changed.
fn slab_locked(local: &mut Local, word: SlabWord) -> Option<Reply>
    ensures { turned local.new result ≡ goes (record local.old { slab_word = word; spot = free.way_of_locked word }) }
{
    local.set_slab_word(word);
    if is_last_listed(word) {
        go(local, FreeSpot::LinkLocked)
    } else {
        go(local, FreeSpot::GoBack)
    }
}

/// The last object in use of a listed slab: only under the node lock may it be freed (`was_frozen`, `prior` of
/// `__slab_free`).
fn is_last_listed(word: SlabWord) -> bool
    ensures { result ≡ free.is_last_listed word }
{
    !word.frozen && word.listed && word.head != 0 && word.inuse == 1
}

/// A full slab that is on no list.
fn was_full(word: SlabWord) -> bool
    ensures { result ≡ free.was_full word }
{
    !word.frozen && word.head == 0
}

/// The object is on its slab's freelist. A slab that was full is in hand then, for the CPU's partial list.
fn slab_freed(setup: &Setup, local: &mut Local) -> Reply
    requires { length local.old.hands < 2 }
    ensures { (means : Means) → turned local.new (Some result) ≡ free.free_advance (setup_of setup.now means) local.old FreeSpot.FreeSlab Answer.Won }
{
    let frame = local.here().frame;
    if was_full(local.slab_word()) {
        let reply = freed(setup, local, Spot::InFree(FreeSpot::LoadCount));
        local.with_hand(bare_hand(frame));
        reply
    } else {
        freed(setup, local, Spot::Between)
    }
}

/// The list word leads to the whole list, where that is long enough to be moved (`put_cpu_partial`).
fn count_loaded(setup: &Setup, local: &mut Local, list: ListWord) -> Option<Reply>
    ensures { (means : Means) → turned local.new result ≡ goes (free.count_loaded (setup_of setup.now means) local.old list) }
{
    let is_long = is_long(setup, local.cache(), list);
    local.set_list_word(list);
    if is_long {
        go(local, FreeSpot::TakeSet)
    } else {
        alone(local);
        None
    }
}

/// A list that holds enough is moved to the node before a slab is put on it.
fn is_long(setup: &Setup, cache: u8, list: ListWord) -> bool
    ensures { result ≡ (nat_lt 0 list.count && nat_le (cache_of setup.now cache).layout.cpu_partial_slabs list.count) }
{
    list.count > 0 && u32::from(list.count) >= setup.layout(cache).cpu_partial_slabs
}

/// The freed slab in hand becomes a string of one.
pub(crate) fn alone(local: &mut Local)
    ensures { local.new ≡ free.alone local.old }
{
    let frame = local.hand().frame;
    local.less_hand();
    local.set_string(Some(single_string(frame)));
    local.at(Spot::InPutOnList(PutOnListSpot::LoadList, PutOnList::OfFree));
}

/// The string that was taken is moved to the node, where there was one.
fn set_taken(local: &mut Local, list: ListWord) -> Option<Reply>
    ensures { turned local.new result ≡ goes (free.set_taken local.old list) }
{
    if list.count == 0 {
        alone(local);
    } else {
        local.set_string(Some(taken_string(list.front, list.count)));
        local.at(Spot::InMoveSet(MoveSetSpot::LockMove, MoveSet::ForFree));
    }
    None
}

/// What is done at once: the empty slab is taken off the node list and is in hand, to be discarded, where the list has
/// enough (`slab_empty` of `__slab_free`).
pub fn free_at_once(setup: &Setup, values: &mut [Guarded], local: &mut Local, spot: FreeSpot)
    requires hands { length local.old.hands < 2 }
    requires once { TakesOff values.old local.old spot }
    ensures change { (means : Means) → changed values.new local.new None ≡ free.free_at_once (setup_of setup.now means) (values_of values.old) local.old spot }
    ensures rooms { rooms_of values.new ≡ rooms_of values.old }
{
    if let FreeSpot::TakeOff = spot {
        let frame = local.here().frame;
        if has_enough(setup, values, local.cache()) {
            take_off(values, local.cache(), frame);
            local.with_hand(bare_hand(frame));
            local.at(Spot::InDiscard(DiscardSpot::Unmake, Discard::FromFree));
        } else {
            local.at(Spot::InFree(FreeSpot::GiveFree));
        }
    }
}
