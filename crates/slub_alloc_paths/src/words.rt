//! `slab_alloc_node`, `___slab_alloc`: the words that an allocation leaves, and the ways that it
//! goes by words.

ghost use Rattle.std.specs.Prelude.{◌≡◌};
ghost use Rattle.slub_core.specs.Setup.{Means};
ghost use Rattle.slub_core.specs.Alloc as alloc;
ghost use Rattle.slub_core.specs.Facts.{setup_of};

use slub_core::local::{FrameRun, Hand, PartialString};
use slub_core::setup::Setup;
use slub_core::spot::{AllocSpot, Away, Spot};
use slub_core::ways::{is_spent, taken_string, way_of_away};
use slub_cpu_partial::words::ListWord;
use slub_trace::reply::Reply;
use slub_words::cpu::CpuWord;
use slub_words::slab::SlabWord;

/// All objects of a slab are in use once its freelist is taken (`get_freelist`, `acquire_slab`).
pub fn emptied_word(slab: SlabWord) -> SlabWord
    ensures { result ≡ alloc.emptied_word slab }
{
    SlabWord {
        head: 0,
        inuse: slab.objects,
        ..slab
    }
}

/// The slab is no CPU's and no worker's.
pub fn thawed_word(slab: SlabWord) -> SlabWord
    ensures { result ≡ alloc.thawed_word slab }
{
    SlabWord {
        frozen: false,
        ..slab
    }
}

/// A slab is frozen only as it becomes current, and comes off every list by it.
pub fn frozen_word(slab: SlabWord) -> SlabWord
    ensures { result ≡ alloc.frozen_word slab }
{
    SlabWord {
        head: 0,
        inuse: slab.objects,
        frozen: true,
        listed: false,
        ..slab
    }
}

/// The slab is off the node list.
pub fn unlisted_word(slab: SlabWord) -> SlabWord
    ensures { result ≡ alloc.unlisted_word slab }
{
    SlabWord {
        listed: false,
        ..slab
    }
}

/// The next of the first object of a chain in hand, once it was loaded: 0 where that is the only one.
pub fn second_of(hand: Hand) -> u16
    ensures { result ≡ alloc.second_of hand }
{
    if hand.length == 2 { hand.last } else { 0 }
}

/// Where a CPU freelist leads: to the fast path, to the slab's own freelist, to another slab. A try ends where the
/// fast path does.
pub fn way_of_word(setup: &Setup, fast: bool, word: CpuWord) -> Spot
    ensures { (means : Means) → result ≡ alloc.way_of_word (setup_of setup.now means) fast word }
{
    if is_spent(setup, word) {
        Spot::Between
    } else if word.head != 0 {
        Spot::InAlloc(AllocSpot::LoadNext)
    } else if fast {
        Spot::Between
    } else if word.frame != 0 {
        Spot::InAlloc(AllocSpot::Detach)
    } else {
        Spot::InAlloc(AllocSpot::TakeList)
    }
}

/// The reply of an allocation that finds a spent transaction id; a try has none.
pub fn told_of_word(setup: &Setup, fast: bool, word: CpuWord) -> Option<Reply>
    ensures { (means : Means) → result ≡ alloc.told_of_word (setup_of setup.now means) fast word }
{
    if is_spent(setup, word) && !fast {
        Some(Reply::IdsSpent(word.tid))
    } else {
        None
    }
}

/// Where a slab's own freelist leads: it is taken, or the slab is full.
pub fn way_of_taken(slab: SlabWord) -> Spot
    ensures { result ≡ alloc.way_of_taken slab }
{
    if slab.head == 0 {
        Spot::InAlloc(AllocSpot::MarkFull)
    } else {
        Spot::InAlloc(AllocSpot::TakeAll)
    }
}

/// Where the CPU's partial list leads: nothing, one slab, which is kept, or a string.
pub fn way_of_list(list: ListWord) -> Spot
    ensures { result ≡ alloc.way_of_list list }
{
    match list.count {
        0 => Spot::InAlloc(AllocSpot::LockNode),
        1 => Spot::InAlloc(AllocSpot::LoadKept),
        _ => Spot::InAlloc(AllocSpot::FollowFront),
    }
}

/// The string of a list of more than one slab.
pub fn string_of_list(list: ListWord) -> Option<PartialString>
    ensures { result ≡ alloc.string_of_list list }
{
    if list.count > 1 {
        Some(taken_string(list.front, list.count))
    } else {
        None
    }
}

/// Where a found run leads.
pub fn way_of_run(run: Option<FrameRun>) -> Spot
    ensures { result ≡ alloc.way_of_run run }
{
    match run {
        None => Spot::InAlloc(AllocSpot::GiveDry),
        Some(_) => Spot::InAlloc(AllocSpot::GivePool),
    }
}

/// Before an install: spent, another slab is current, or none.
pub fn way_of_again(setup: &Setup, hand: Hand, word: CpuWord) -> Spot
    ensures { (means : Means) → result ≡ alloc.way_of_again (setup_of setup.now means) hand word }
{
    if is_spent(setup, word) {
        way_of_away(hand, Away::ForSpent)
    } else if word.frame == 0 {
        Spot::InAlloc(AllocSpot::Install)
    } else {
        Spot::InAlloc(AllocSpot::DetachOther)
    }
}
