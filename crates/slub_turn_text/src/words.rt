//! Which word a step is made on.

ghost use Rattle.std.specs.Prelude.{◌≡◌, ◌++◌, OnOk};
ghost use Rattle.slub_turn_text.specs.Words as spec;
ghost use Rattle.std.specs.Fmt.{decimal};

use crate::columns::{push_number, push_words};
use crate::fields::push_object;
use crate::labels::Labels;
use crate::object::Object;
use slub_common::no_memory::NoMemory;
use slub_core::call::Call;
use slub_core::spot::{AllocSpot, PutAwaySpot, Spot};
use slub_core::step::Place;
use slub_core::ways::reached;
use slub_core::worker_local::Local;

/// The object of a worker's call.
fn own_object(local: &Local) -> Object
    ensures { result ≡ spec.own_object local.now }
{
    let here = local.here();
    Object {
        cache: here.cache,
        frame: here.frame,
        index: here.index,
    }
}

/// An object of the cache that a worker has come to, by its index plus one.
fn object_of(local: &Local, frame: u16, head: u16) -> Object
    ensures { result ≡ spec.object_of local.now frame head }
{
    Object {
        cache: local.cache(),
        frame,
        index: head.saturating_sub(1),
    }
}

/// An object of the run in hand.
fn object_in_run(local: &Local, index: u16) -> Object
    ensures { result ≡ spec.object_in_run local.now index }
{
    Object {
        cache: local.cache(),
        frame: local.run_or_none().frame,
        index,
    }
}

/// The object whose free pointer is loaded or stored at a spot.
#[tactic(auto, unfolding(crate::specs::Words::pointed))]
pub(crate) fn pointed(local: &Local, spot: Spot) -> Object
    ensures { result ≡ spec.pointed local.now spot }
{
    let hand = local.hand();
    match spot {
        Spot::InAlloc(AllocSpot::LoadNext) => {
            object_of(local, local.cpu_word().frame, local.cpu_word().head)
        }
        Spot::InAlloc(AllocSpot::LinkNew(index)) => object_in_run(local, index),
        Spot::InAlloc(AllocSpot::LoadReady) => object_of(local, hand.frame, hand.head),
        Spot::InPutAway(PutAwaySpot::WalkChain, _) => object_of(local, hand.frame, reached(hand)),
        Spot::InPutAway(PutAwaySpot::LinkLast, _) => object_of(local, hand.frame, hand.last),
        _ => own_object(local),
    }
}

/// A free pointer.
fn push_next(text: &mut Vec<u8>, object: Object) -> Result<(), NoMemory>
    ensures { OnOk result (text.new.items ≡ text.old.items ++ spec.next_text object) }
{
    push_words(text, b"next ")?;
    push_object(text, object.frame, u64::from(object.index))
}

/// The word that a write or a read is of.
fn push_word_of(text: &mut Vec<u8>, call: Call) -> Result<(), NoMemory>
    ensures { OnOk result (text.new.items ≡ text.old.items ++ spec.word_of_call call) }
{
    match call {
        Call::Write { word, .. } => {
            push_words(text, b" ")?;
            push_number(text, u64::from(word))
        }
        Call::Read { word, .. } => {
            push_words(text, b" ")?;
            push_number(text, u64::from(word))
        }
        _ => Ok(()),
    }
}

/// A word of the object of a worker's call.
#[tactic(auto, unfolding(crate::specs::Words::used_text))]
fn push_used(text: &mut Vec<u8>, local: &Local) -> Result<(), NoMemory>
    ensures { OnOk result (text.new.items ≡ text.old.items ++ spec.used_text local.now) }
{
    push_words(text, b"word ")?;
    push_object(text, local.here().frame, u64::from(local.here().index))?;
    push_word_of(text, local.call())
}

/// A holder's word, or a free pointer.
#[tactic(auto, unfolding(crate::specs::Words::memory_text))]
fn push_memory(text: &mut Vec<u8>, local: &Local, spot: Spot) -> Result<(), NoMemory>
    ensures { OnOk result (text.new.items ≡ text.old.items ++ spec.memory_text local.now spot) }
{
    match spot {
        Spot::WriteWord | Spot::ReadWord => push_used(text, local),
        _ => push_next(text, pointed(local, spot)),
    }
}

/// A lock.
#[tactic(auto, unfolding(crate::specs::Words::lock_text))]
fn push_lock(text: &mut Vec<u8>, labels: &Labels, lock: u32) -> Result<(), NoMemory>
    ensures { OnOk result (text.new.items ≡ text.old.items ++ spec.lock_text labels.now lock) }
{
    if lock == 0 {
        return push_words(text, b"lock pool");
    }
    push_words(text, b"lock node ")?;
    push_words(text, labels.title_of(lock as usize - 1))
}

/// A word of a cache and a CPU.
fn push_of_cpu(
    text: &mut Vec<u8>,
    labels: &Labels,
    words: &[u8],
    number: u32,
) -> Result<(), NoMemory>
    ensures { OnOk result (text.new.items ≡ text.old.items ++ spec.of_cpu labels.now words.now number) }
{
    push_words(text, words)?;
    push_number(text, u64::from(number % 16))?;
    push_words(text, b" ")?;
    push_words(text, labels.title_of(number as usize / 16))
}

/// Words and a number.
fn push_numbered(text: &mut Vec<u8>, words: &[u8], n: u32) -> Result<(), NoMemory>
    ensures { OnOk result (text.new.items ≡ text.old.items ++ words.now ++ decimal n) }
{
    push_words(text, words)?;
    push_number(text, u64::from(n))
}

/// The word that a step is made on.
#[tactic(auto, unfolding(crate::specs::Words::word_text))]
pub(crate) fn push_word(
    text: &mut Vec<u8>,
    labels: &Labels,
    local: &Local,
    place: Place,
) -> Result<(), NoMemory>
    ensures { OnOk result (text.new.items ≡ text.old.items ++ spec.word_text labels.now local.now place) }
{
    match place {
        Place::LockOf(lock) => push_lock(text, labels, lock),
        Place::ListOf(number) => push_of_cpu(text, labels, b"list ", number),
        Place::CpuOf(number) => push_of_cpu(text, labels, b"cpu ", number),
        Place::SlabOf(frame) => push_numbered(text, b"slab ", frame),
        Place::BoardOf(object) => push_numbered(text, b"board ", object),
        Place::MemoryOf(_) => push_memory(text, local, local.spot()),
        Place::LinkOf(frame) => push_numbered(text, b"link ", frame),
    }
}
