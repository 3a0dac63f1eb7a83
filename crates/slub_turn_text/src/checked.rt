//! What is said of a change of a checked cache's slabs.

ghost use Rattle.std.specs.Prelude.{◌≡◌, ◌++◌, OnOk};
ghost use Rattle.slub_turn_text.specs.Checked as spec;

use crate::columns::{push_hex, push_number, push_signed, push_words};
use crate::damage::push_damage;
use crate::fields::{push_object, push_run_told};
use slub_common::no_memory::NoMemory;
use slub_core::call::Call;
use slub_core::local::FrameRun;
use slub_core::worker_local::Local;
use slub_object_layout::layout::Layout;
use slub_red_zone::checked::CheckedSlabs;
use slub_trace::damage::Report;
use slub_trace::reply::Reply;

/// Where the slab of a frame begins.
fn begin_of(slabs: &CheckedSlabs, frame: u16) -> u16
    ensures { result ≡ spec.begin_of slabs.now frame }
{
    if slabs.has(frame) {
        frame
    } else if slabs.has(frame - frame % 2) {
        frame - frame % 2
    } else if slabs.has(frame - frame % 4) {
        frame - frame % 4
    } else {
        frame - frame % 8
    }
}

/// The first frame of the slab in which an address lies.
#[tactic(auto, unfolding(crate::specs::Checked::slab_of_address))]
fn slab_of_address(slabs: &CheckedSlabs, address: u32) -> u16
    ensures { result ≡ spec.slab_of_address slabs.now address }
{
    begin_of(slabs, (address / 4096 % 65536) as u16)
}

/// The index of the object at an address.
#[tactic(auto, unfolding(crate::specs::Checked::index_at))]
fn index_at(layout: &Layout, frame: u16, address: u32) -> u64
    ensures { result ≡ spec.index_at layout.now frame address }
{
    let first = 4096 * u64::from(frame) + u64::from(layout.left_pad);
    let within = u64::from(address).saturating_sub(first);
    if layout.size == 0 {
        return 0;
    }
    within / u64::from(layout.size)
}

/// A slab that was set aside, and what was found damaged.
#[tactic(auto, unfolding(crate::specs::Checked::aside_text))]
pub(crate) fn push_aside(
    text: &mut Vec<u8>,
    slabs: &CheckedSlabs,
    report: &Report,
) -> Result<(), NoMemory>
    ensures { OnOk result (text.new.items ≡ text.old.items ++ spec.aside_text slabs.now report.now) }
{
    let frame = slab_of_address(slabs, report.address);
    push_words(text, b"sets slab ")?;
    push_number(text, u64::from(frame))?;
    push_words(text, b" aside, ")?;
    push_object(text, frame, index_at(slabs.layout(), frame, report.address))?;
    push_words(text, b" ")?;
    push_damage(text, &report.damage)
}

/// The object of the call.
#[tactic(auto, unfolding(crate::specs::Checked::own_text))]
fn push_own(text: &mut Vec<u8>, local: &Local) -> Result<(), NoMemory>
    ensures { OnOk result (text.new.items ≡ text.old.items ++ spec.own_text local.now) }
{
    let here = local.here();
    push_object(text, here.frame, u64::from(here.index))
}

/// (`alloc_single_from_partial`)
#[tactic(auto, unfolding(crate::specs::Checked::alloc_says))]
fn push_alloc(text: &mut Vec<u8>, local: &Local, reply: Option<Reply>) -> Result<(), NoMemory>
    ensures { OnOk result (text.new.items ≡ text.old.items ++ spec.alloc_says local.now reply) }
{
    match reply {
        Some(Reply::Given(_)) => {
            push_words(text, b"gives ")?;
            push_own(text, local)
        }
        _ => push_words(text, b"has no free object"),
    }
}

/// The slab of the object, where it goes.
#[tactic(auto, unfolding(crate::specs::Checked::off_text))]
fn push_off(text: &mut Vec<u8>, local: &Local) -> Result<(), NoMemory>
    ensures { OnOk result (text.new.items ≡ text.old.items ++ spec.off_text local.now) }
{
    if local.run_or_none().frame == 0 {
        return Ok(());
    }
    push_words(text, b", takes slab ")?;
    push_number(text, u64::from(local.here().frame))?;
    push_words(text, b" off")
}

/// (`free_debug_processing`)
#[tactic(auto, unfolding(crate::specs::Checked::free_says))]
fn push_free(text: &mut Vec<u8>, local: &Local, reply: Option<Reply>) -> Result<(), NoMemory>
    ensures { OnOk result (text.new.items ≡ text.old.items ++ spec.free_says local.now reply) }
{
    match reply {
        Some(Reply::Corrupt(damage)) => {
            push_words(text, b"finds ")?;
            push_own(text, local)?;
            push_words(text, b" ")?;
            push_damage(text, &damage)
        }
        _ => {
            push_words(text, b"takes ")?;
            push_own(text, local)?;
            push_words(text, b" back")?;
            push_off(text, local)
        }
    }
}

/// A word that is written or read.
#[tactic(auto, unfolding(crate::specs::Checked::use_text))]
fn push_use(
    text: &mut Vec<u8>,
    words: &[u8],
    local: &Local,
    word: u32,
    value: u64,
) -> Result<(), NoMemory>
    ensures { OnOk result (text.new.items ≡ text.old.items ++ spec.use_text words.now local.now word value) }
{
    push_words(text, words)?;
    push_number(text, u64::from(word))?;
    push_words(text, b" of ")?;
    push_own(text, local)?;
    push_words(text, b", ")?;
    push_number(text, value)
}

#[tactic(auto, unfolding(crate::specs::Checked::read_says))]
fn push_read(
    text: &mut Vec<u8>,
    local: &Local,
    word: u32,
    reply: Option<Reply>,
) -> Result<(), NoMemory>
    ensures { OnOk result (text.new.items ≡ text.old.items ++ spec.read_says local.now word reply) }
{
    match reply {
        Some(Reply::Value(value)) => push_use(text, b"reads word ", local, word, value),
        _ => Ok(()),
    }
}

/// A byte that is poked.
#[tactic(auto, unfolding(crate::specs::Checked::byte_text))]
fn push_byte(text: &mut Vec<u8>, local: &Local, offset: i32, byte: u8) -> Result<(), NoMemory>
    ensures { OnOk result (text.new.items ≡ text.old.items ++ spec.byte_text local.now offset byte) }
{
    push_words(text, b"pokes byte ")?;
    push_signed(text, offset)?;
    push_words(text, b" of ")?;
    push_own(text, local)?;
    push_words(text, b", ")?;
    push_hex(text, byte)
}

/// Whether a byte was written.
fn is_poked(reply: Option<Reply>) -> bool
    ensures { result ≡ spec.is_poked reply }
{
    match reply {
        Some(Reply::Poked) => true,
        _ => false,
    }
}

#[tactic(auto, unfolding(crate::specs::Checked::poke_says))]
fn push_poke(
    text: &mut Vec<u8>,
    local: &Local,
    offset: i32,
    byte: u8,
    reply: Option<Reply>,
) -> Result<(), NoMemory>
    ensures { OnOk result (text.new.items ≡ text.old.items ++ spec.poke_says local.now offset byte reply) }
{
    if is_poked(reply) {
        push_byte(text, local, offset, byte)
    } else {
        push_words(text, b"pokes nothing")
    }
}

/// What a call says, after which the worker is so, with this reply.
#[tactic(auto, unfolding(crate::specs::Checked::do_says))]
pub(crate) fn push_do(
    text: &mut Vec<u8>,
    local: &Local,
    call: Call,
    reply: Option<Reply>,
) -> Result<(), NoMemory>
    ensures { OnOk result (text.new.items ≡ text.old.items ++ spec.do_says local.now call reply) }
{
    match call {
        Call::Alloc { .. } => push_alloc(text, local, reply),
        Call::Free { .. } => push_free(text, local, reply),
        Call::Write { word, value, .. } => push_use(text, b"writes word ", local, word, value),
        Call::Read { word, .. } => push_read(text, local, word, reply),
        Call::Poke { offset, byte, .. } => push_poke(text, local, offset, byte, reply),
        Call::Trim { .. } | Call::Flush { .. } => Ok(()),
    }
}

/// A run becomes a slab.
#[tactic(auto, unfolding(crate::specs::Checked::added_says))]
fn push_added(text: &mut Vec<u8>, run: FrameRun) -> Result<(), NoMemory>
    ensures { OnOk result (text.new.items ≡ text.old.items ++ spec.added_says run) }
{
    push_words(text, b"adds slab ")?;
    push_number(text, u64::from(run.frame))?;
    push_words(text, b", gives ")?;
    push_object(text, run.frame, 0)
}

/// A run is put back, since there is no memory.
#[tactic(auto, unfolding(crate::specs::Checked::refused_says))]
fn push_refused(text: &mut Vec<u8>, run: FrameRun) -> Result<(), NoMemory>
    ensures { OnOk result (text.new.items ≡ text.old.items ++ spec.refused_says run) }
{
    push_run_told(text, b"has no memory, puts frames ", run, b" back")
}

/// A run that becomes a slab, or is put back (`alloc_single_from_new_slab`).
#[tactic(auto, unfolding(crate::specs::Checked::add_says))]
pub(crate) fn push_add(
    text: &mut Vec<u8>,
    run: FrameRun,
    reply: Option<Reply>,
) -> Result<(), NoMemory>
    ensures { OnOk result (text.new.items ≡ text.old.items ++ spec.add_says run reply) }
{
    match reply {
        Some(Reply::Given(_)) => push_added(text, run),
        _ => push_refused(text, run),
    }
}
