//! What a step was, and what it says.

ghost use Rattle.std.specs.Prelude.{◌≡◌, ◌++◌, OnOk};
ghost use Rattle.slub_turn_text.specs.Says as spec;

use crate::columns::{push_number, push_words};
use crate::fields::{
    Form, push_became, push_board_change, push_cpu_change, push_cpu_unlike, push_frame,
    push_holder, push_index, push_list_change, push_list_unlike, push_slab_change,
    push_slab_unlike,
};
use crate::object::Object;
use crate::words::pointed;
use slub_common::no_memory::NoMemory;
use slub_core::setup::Setup;
use slub_core::spot::{AllocSpot, Spot};
use slub_core::step::{Answer, Op, Place, Step};
use slub_core::words::{cpu_in, list_in, slab_in};
use slub_core::worker_local::Local;
use slub_words::slab::SlabWord;

/// The word of no slab.
pub const NO_SLAB_WORD: SlabWord = SlabWord {
    head: 0,
    inuse: 0,
    objects: 0,
    frozen: false,
    listed: false,
    cache: 0,
};

/// What an exchange was.
fn exchange_text(answer: Answer) -> &'static [u8]
    ensures { result.now ≡ spec.exchange_text answer }
{
    match answer {
        Answer::Lost(_) => b"exchange lost",
        Answer::Word(_) | Answer::Done | Answer::Won => b"exchange won",
    }
}

/// What a step was.
#[tactic(auto, unfolding(crate::specs::Says::step_text))]
pub(crate) fn step_text(op: Op, answer: Answer) -> &'static [u8]
    ensures { result.now ≡ spec.step_text op answer }
{
    match op {
        Op::Load => b"load",
        Op::Store(_) => b"store",
        Op::Swap(_) => b"swap",
        Op::Exchange { from: _, to: _ } => exchange_text(answer),
    }
}

/// A packed word that becomes another one.
#[tactic(auto, unfolding(crate::specs::Says::changed))]
fn push_changed(text: &mut Vec<u8>, place: Place, old: u64, new: u64) -> Result<(), NoMemory>
    ensures { OnOk result (text.new.items ≡ text.old.items ++ spec.changed place old new) }
{
    match place {
        Place::LockOf(_) => push_became(text, Form::Holder, old, new),
        Place::ListOf(_) => push_list_change(text, list_in(old), list_in(new)),
        Place::CpuOf(_) => push_cpu_change(text, cpu_in(old), cpu_in(new)),
        Place::SlabOf(_) => push_slab_change(text, slab_in(old), slab_in(new)),
        Place::BoardOf(_) => push_board_change(text, old, new),
        Place::MemoryOf(_) | Place::LinkOf(_) => Ok(()),
    }
}

/// The fields of the word that was found which aren't as they were noted.
#[tactic(auto, unfolding(crate::specs::Says::found))]
fn push_found(text: &mut Vec<u8>, place: Place, noted: u64, found: u64) -> Result<(), NoMemory>
    ensures { OnOk result (text.new.items ≡ text.old.items ++ spec.found place noted found) }
{
    match place {
        Place::LockOf(_) => {
            push_words(text, b" ")?;
            push_holder(text, found)
        }
        Place::ListOf(_) => push_list_unlike(text, list_in(noted), list_in(found)),
        Place::CpuOf(_) => push_cpu_unlike(text, cpu_in(noted), cpu_in(found)),
        Place::SlabOf(_) => push_slab_unlike(text, slab_in(noted), slab_in(found)),
        Place::BoardOf(_) | Place::MemoryOf(_) | Place::LinkOf(_) => Ok(()),
    }
}

/// The slab to which a link leads.
#[tactic(auto, unfolding(crate::specs::Says::link_text))]
fn push_link(text: &mut Vec<u8>, word: u64) -> Result<(), NoMemory>
    ensures { OnOk result (text.new.items ≡ text.old.items ++ spec.link_text word) }
{
    push_frame(text, word % 65536)
}

/// A free pointer as the allocator reads it (`get_freepointer`).
#[tactic(auto, unfolding(crate::specs::Says::pointer_text))]
fn push_pointer(
    text: &mut Vec<u8>,
    setup: &Setup,
    object: Object,
    word: u64,
) -> Result<(), NoMemory>
    ensures { OnOk result (text.new.items ≡ text.old.items ++ spec.pointer_text setup.now object word) }
{
    let next = setup.found_at(object.cache, object.frame, object.index, word);
    push_index(text, u64::from(next))
}

/// A holder's word, or a free pointer.
#[tactic(auto, unfolding(crate::specs::Says::content_text))]
fn push_content(
    text: &mut Vec<u8>,
    setup: &Setup,
    local: &Local,
    spot: Spot,
    word: u64,
) -> Result<(), NoMemory>
    ensures { OnOk result (text.new.items ≡
        text.old.items ++ spec.content_text setup.now local.now spot word) }
{
    match spot {
        Spot::WriteWord | Spot::ReadWord => push_number(text, word),
        _ => push_pointer(text, setup, pointed(local, spot), word),
    }
}

/// What a word says that is loaded.
#[tactic(auto, unfolding(crate::specs::Says::loaded))]
fn push_loaded(
    text: &mut Vec<u8>,
    setup: &Setup,
    local: &Local,
    place: Place,
    word: u64,
) -> Result<(), NoMemory>
    ensures { OnOk result (text.new.items ≡
        text.old.items ++ spec.loaded setup.now local.now place word) }
{
    match place {
        Place::MemoryOf(_) => push_content(text, setup, local, local.spot(), word),
        Place::LinkOf(_) => push_link(text, word),
        _ => push_changed(text, place, word, word),
    }
}

/// The slab word before it is stored.
fn slab_before(seen: SlabWord, spot: Spot) -> SlabWord
    ensures { result ≡ spec.slab_before seen spot }
{
    match spot {
        Spot::InAlloc(AllocSpot::Make) => NO_SLAB_WORD,
        _ => seen,
    }
}

/// What a word says that is stored.
#[tactic(auto, unfolding(crate::specs::Says::stored))]
fn push_stored(
    text: &mut Vec<u8>,
    setup: &Setup,
    seen: SlabWord,
    local: &Local,
    place: Place,
    word: u64,
) -> Result<(), NoMemory>
    ensures { OnOk result (text.new.items ≡
        text.old.items ++ spec.stored setup.now seen local.now place word) }
{
    match place {
        Place::MemoryOf(_) => {
            push_words(text, b"->")?;
            push_content(text, setup, local, local.spot(), word)
        }
        Place::LinkOf(_) => {
            push_words(text, b"->")?;
            push_link(text, word)
        }
        Place::SlabOf(_) => push_slab_change(text, slab_before(seen, local.spot()), slab_in(word)),
        Place::LockOf(_) => push_became(text, Form::Holder, u64::from(local.worker()) + 1, word),
        Place::ListOf(_) | Place::CpuOf(_) | Place::BoardOf(_) => Ok(()),
    }
}

/// What an exchange says.
#[tactic(auto, unfolding(crate::specs::Says::exchanged))]
fn push_exchanged(
    text: &mut Vec<u8>,
    place: Place,
    from: u64,
    to: u64,
    answer: Answer,
) -> Result<(), NoMemory>
    ensures { OnOk result (text.new.items ≡ text.old.items ++ spec.exchanged place from to answer) }
{
    push_changed(text, place, from, to)?;
    match answer {
        Answer::Lost(found) => {
            push_words(text, b", found")?;
            push_found(text, place, from, found)
        }
        Answer::Word(_) | Answer::Done | Answer::Won => Ok(()),
    }
}

/// What a step says: from what to what, and what was found. `seen` is the slab word that the worker saw or left last.
#[tactic(auto, unfolding(crate::specs::Says::says, crate::specs::Says::says_by))]
pub(crate) fn push_says(
    text: &mut Vec<u8>,
    setup: &Setup,
    seen: SlabWord,
    local: &Local,
    step: Step,
    answer: Answer,
) -> Result<(), NoMemory>
    ensures { OnOk result (text.new.items ≡
        text.old.items ++ spec.says setup.now seen local.now step answer) }
{
    match (step.op, answer) {
        (Op::Load, Answer::Word(word)) => push_loaded(text, setup, local, step.place, word),
        (Op::Store(word), _) => push_stored(text, setup, seen, local, step.place, word),
        (Op::Swap(to), Answer::Word(word)) => push_changed(text, step.place, word, to),
        (Op::Exchange { from, to }, _) => push_exchanged(text, step.place, from, to, answer),
        _ => Ok(()),
    }
}

/// The slab word that a worker saw or left last, after a step on a slab word.
fn seen_by(seen: SlabWord, op: Op, answer: Answer) -> SlabWord
    ensures { result ≡ spec.seen_by seen op answer }
{
    match (op, answer) {
        (Op::Load, Answer::Word(word)) => slab_in(word),
        (Op::Store(word), _) => slab_in(word),
        (Op::Exchange { from: _, to }, Answer::Won) => slab_in(to),
        _ => seen,
    }
}

/// The slab word that a worker saw or left last, after a step.
#[tactic(auto, unfolding(crate::specs::Says::seen_after))]
pub fn seen_after(seen: SlabWord, step: Step, answer: Answer) -> SlabWord
    ensures { result ≡ spec.seen_after seen step answer }
{
    match step.place {
        Place::SlabOf(_) => seen_by(seen, step.op, answer),
        _ => seen,
    }
}
