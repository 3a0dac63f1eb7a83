//! Values as texts, what a field becomes, and the fields of packed words.

ghost use Rattle.std.specs.Prelude.{◌≡◌, ◌++◌, OnOk};
ghost use Rattle.slub_core.specs.World.{one_if};
ghost use Rattle.slub_core.specs.Words.{board_in};
ghost use Rattle.slub_turn_text.specs.Fields as fields;

use crate::columns::{push_number, push_words};
use slub_common::no_memory::NoMemory;
use slub_core::local::FrameRun;
use slub_core::words::board_in;
use slub_cpu_partial::words::ListWord;
use slub_words::cpu::CpuWord;
use slub_words::slab::SlabWord;

/// How a value is told.
#[derive(Clone, Copy, Debug, PartialEq, Eq)]
pub enum Form {
    Number,
    /// The index of an object, which stands as one more in a packed word; 0 is none.
    Index,
    /// The frame where a slab begins; 0 is none.
    Frame,
    /// A lock's word: the number of the worker that has it plus one; 0 is free.
    Holder,
}

/// An object's index.
pub(crate) fn push_index(text: &mut Vec<u8>, n: u64) -> Result<(), NoMemory>
    ensures { OnOk result (text.new.items ≡ text.old.items ++ fields.index_text n) }
{
    if n == 0 {
        push_words(text, b"none")
    } else {
        push_number(text, n - 1)
    }
}

/// The frame where a slab begins.
pub(crate) fn push_frame(text: &mut Vec<u8>, n: u64) -> Result<(), NoMemory>
    ensures { OnOk result (text.new.items ≡ text.old.items ++ fields.frame_text n) }
{
    if n == 0 {
        push_words(text, b"none")
    } else {
        push_number(text, n)
    }
}

/// A lock's word.
pub(crate) fn push_holder(text: &mut Vec<u8>, n: u64) -> Result<(), NoMemory>
    ensures { OnOk result (text.new.items ≡ text.old.items ++ fields.holder_text n) }
{
    if n == 0 {
        push_words(text, b"free")
    } else {
        push_words(text, b"w")?;
        push_number(text, n - 1)
    }
}

/// An object: `F.I`.
#[tactic(auto, unfolding(crate::specs::Fields::object_text))]
pub(crate) fn push_object(text: &mut Vec<u8>, frame: u16, index: u64) -> Result<(), NoMemory>
    ensures { OnOk result (text.new.items ≡ text.old.items ++ fields.object_text frame index) }
{
    push_number(text, u64::from(frame))?;
    push_words(text, b".")?;
    push_number(text, index)
}

/// The last frame of a run.
fn last_of(run: FrameRun) -> u64
    ensures { result ≡ fields.last_of run.frame run.order }
{
    u64::from(run.frame) + (1u64 << run.order.min(10)) - 1
}

/// The frames of a run.
#[tactic(auto, unfolding(crate::specs::Fields::run_text))]
pub(crate) fn push_run(text: &mut Vec<u8>, run: FrameRun) -> Result<(), NoMemory>
    ensures { OnOk result (text.new.items ≡ text.old.items ++ fields.run_text run.frame run.order) }
{
    push_number(text, u64::from(run.frame))?;
    if run.order == 0 {
        return Ok(());
    }
    push_words(text, b"..")?;
    push_number(text, last_of(run))
}

/// Words, the frames of a run, and words behind them.
pub(crate) fn push_run_told(
    text: &mut Vec<u8>,
    words: &[u8],
    run: FrameRun,
    behind: &[u8],
) -> Result<(), NoMemory>
    ensures { OnOk result (text.new.items ≡
        text.old.items ++ (words.now ++ fields.run_text run.frame run.order ++ behind.now)) }
{
    push_words(text, words)?;
    push_run(text, run)?;
    push_words(text, behind)
}

/// Words and the frames of a run.
pub(crate) fn push_words_run(
    text: &mut Vec<u8>,
    words: &[u8],
    run: FrameRun,
) -> Result<(), NoMemory>
    ensures { OnOk result (text.new.items ≡
        text.old.items ++ (words.now ++ fields.run_text run.frame run.order)) }
{
    push_words(text, words)?;
    push_run(text, run)
}

/// A value of a form.
#[tactic(auto, unfolding(crate::specs::Fields::text_as))]
fn push_as(text: &mut Vec<u8>, form: Form, n: u64) -> Result<(), NoMemory>
    ensures { OnOk result (text.new.items ≡ text.old.items ++ fields.text_as form n) }
{
    match form {
        Form::Number => push_number(text, n),
        Form::Index => push_index(text, n),
        Form::Frame => push_frame(text, n),
        Form::Holder => push_holder(text, n),
    }
}

/// A value alone, where it doesn't change; both where it does.
#[tactic(auto, unfolding(crate::specs::Fields::became))]
pub(crate) fn push_became(
    text: &mut Vec<u8>,
    form: Form,
    old: u64,
    new: u64,
) -> Result<(), NoMemory>
    ensures { OnOk result (text.new.items ≡ text.old.items ++ fields.became form old new) }
{
    push_as(text, form, old)?;
    if old == new {
        return Ok(());
    }
    push_words(text, b"->")?;
    push_as(text, form, new)
}

/// A field and what it becomes.
fn push_field(
    text: &mut Vec<u8>,
    name: &[u8],
    form: Form,
    old: u64,
    new: u64,
) -> Result<(), NoMemory>
    ensures { OnOk result (text.new.items ≡ text.old.items ++ name.now ++ fields.became form old new) }
{
    push_words(text, name)?;
    push_became(text, form, old, new)
}

/// A field with its name, where what was found isn't what was noted.
#[tactic(auto, unfolding(crate::specs::Fields::unlike))]
fn push_unlike(
    text: &mut Vec<u8>,
    name: &[u8],
    form: Form,
    noted: u64,
    found: u64,
) -> Result<(), NoMemory>
    ensures { OnOk result (text.new.items ≡ text.old.items ++ fields.unlike name.now form noted found) }
{
    if noted == found {
        return Ok(());
    }
    push_words(text, name)?;
    push_as(text, form, found)
}

/// A mark of a slab as a number.
fn flag(mark: bool) -> u64
    ensures { result ≡ one_if mark }
{
    if mark { 1 } else { 0 }
}

/// A CPU word and what it becomes.
#[tactic(auto, unfolding(crate::specs::Fields::cpu_change))]
pub(crate) fn push_cpu_change(
    text: &mut Vec<u8>,
    old: CpuWord,
    new: CpuWord,
) -> Result<(), NoMemory>
    ensures { OnOk result (text.new.items ≡ text.old.items ++ fields.cpu_change old new) }
{
    push_field(
        text,
        b"tid ",
        Form::Number,
        u64::from(old.tid),
        u64::from(new.tid),
    )?;
    push_field(
        text,
        b" slab ",
        Form::Frame,
        u64::from(old.frame),
        u64::from(new.frame),
    )?;
    push_field(
        text,
        b" head ",
        Form::Index,
        u64::from(old.head),
        u64::from(new.head),
    )
}

/// The fields of a CPU word that aren't as they were noted.
#[tactic(auto, unfolding(crate::specs::Fields::cpu_unlike))]
pub(crate) fn push_cpu_unlike(
    text: &mut Vec<u8>,
    noted: CpuWord,
    found: CpuWord,
) -> Result<(), NoMemory>
    ensures { OnOk result (text.new.items ≡ text.old.items ++ fields.cpu_unlike noted found) }
{
    push_unlike(
        text,
        b" tid ",
        Form::Number,
        u64::from(noted.tid),
        u64::from(found.tid),
    )?;
    push_unlike(
        text,
        b" slab ",
        Form::Frame,
        u64::from(noted.frame),
        u64::from(found.frame),
    )?;
    push_unlike(
        text,
        b" head ",
        Form::Index,
        u64::from(noted.head),
        u64::from(found.head),
    )
}

/// The word of a partial list and what it becomes.
#[tactic(auto, unfolding(crate::specs::Fields::list_change))]
pub(crate) fn push_list_change(
    text: &mut Vec<u8>,
    old: ListWord,
    new: ListWord,
) -> Result<(), NoMemory>
    ensures { OnOk result (text.new.items ≡ text.old.items ++ fields.list_change old new) }
{
    push_field(
        text,
        b"front ",
        Form::Frame,
        u64::from(old.front),
        u64::from(new.front),
    )?;
    push_field(
        text,
        b" count ",
        Form::Number,
        u64::from(old.count),
        u64::from(new.count),
    )
}

/// The fields of a partial list's word that aren't as they were noted.
#[tactic(auto, unfolding(crate::specs::Fields::list_unlike))]
pub(crate) fn push_list_unlike(
    text: &mut Vec<u8>,
    noted: ListWord,
    found: ListWord,
) -> Result<(), NoMemory>
    ensures { OnOk result (text.new.items ≡ text.old.items ++ fields.list_unlike noted found) }
{
    push_unlike(
        text,
        b" front ",
        Form::Frame,
        u64::from(noted.front),
        u64::from(found.front),
    )?;
    push_unlike(
        text,
        b" count ",
        Form::Number,
        u64::from(noted.count),
        u64::from(found.count),
    )
}

/// The marks of a slab and what they become.
#[tactic(auto, unfolding(crate::specs::Fields::marks_change))]
fn push_marks_change(text: &mut Vec<u8>, old: SlabWord, new: SlabWord) -> Result<(), NoMemory>
    ensures { OnOk result (text.new.items ≡ text.old.items ++ fields.marks_change old new) }
{
    push_field(
        text,
        b" frozen ",
        Form::Number,
        flag(old.frozen),
        flag(new.frozen),
    )?;
    push_field(
        text,
        b" listed ",
        Form::Number,
        flag(old.listed),
        flag(new.listed),
    )
}

/// A slab word and what it becomes.
#[tactic(auto, unfolding(crate::specs::Fields::slab_change))]
pub(crate) fn push_slab_change(
    text: &mut Vec<u8>,
    old: SlabWord,
    new: SlabWord,
) -> Result<(), NoMemory>
    ensures { OnOk result (text.new.items ≡ text.old.items ++ fields.slab_change old new) }
{
    push_field(
        text,
        b"head ",
        Form::Index,
        u64::from(old.head),
        u64::from(new.head),
    )?;
    push_field(
        text,
        b" inuse ",
        Form::Number,
        u64::from(old.inuse),
        u64::from(new.inuse),
    )?;
    push_field(
        text,
        b" objects ",
        Form::Number,
        u64::from(old.objects),
        u64::from(new.objects),
    )?;
    push_marks_change(text, old, new)
}

/// The counts of a slab that aren't as they were noted.
#[tactic(auto, unfolding(crate::specs::Fields::counts_unlike))]
fn push_counts_unlike(text: &mut Vec<u8>, noted: SlabWord, found: SlabWord) -> Result<(), NoMemory>
    ensures { OnOk result (text.new.items ≡ text.old.items ++ fields.counts_unlike noted found) }
{
    push_unlike(
        text,
        b" head ",
        Form::Index,
        u64::from(noted.head),
        u64::from(found.head),
    )?;
    push_unlike(
        text,
        b" inuse ",
        Form::Number,
        u64::from(noted.inuse),
        u64::from(found.inuse),
    )?;
    push_unlike(
        text,
        b" objects ",
        Form::Number,
        u64::from(noted.objects),
        u64::from(found.objects),
    )
}

/// The marks of a slab that aren't as they were noted.
#[tactic(auto, unfolding(crate::specs::Fields::marks_unlike))]
fn push_marks_unlike(text: &mut Vec<u8>, noted: SlabWord, found: SlabWord) -> Result<(), NoMemory>
    ensures { OnOk result (text.new.items ≡ text.old.items ++ fields.marks_unlike noted found) }
{
    push_unlike(
        text,
        b" frozen ",
        Form::Number,
        flag(noted.frozen),
        flag(found.frozen),
    )?;
    push_unlike(
        text,
        b" listed ",
        Form::Number,
        flag(noted.listed),
        flag(found.listed),
    )
}

/// Whether all that is told of two slab words is the same.
#[tactic(auto, unfolding(crate::specs::Fields::is_told_same))]
fn is_told_same(noted: SlabWord, found: SlabWord) -> bool
    ensures { result ≡ fields.is_told_same noted found }
{
    noted.head == found.head
        && noted.inuse == found.inuse
        && noted.objects == found.objects
        && flag(noted.frozen) == flag(found.frozen)
        && flag(noted.listed) == flag(found.listed)
}

/// The fields of a slab word that aren't as they were noted; its cache, where nothing else differs.
#[tactic(auto, unfolding(crate::specs::Fields::slab_unlike))]
pub(crate) fn push_slab_unlike(
    text: &mut Vec<u8>,
    noted: SlabWord,
    found: SlabWord,
) -> Result<(), NoMemory>
    ensures { OnOk result (text.new.items ≡ text.old.items ++ fields.slab_unlike noted found) }
{
    if is_told_same(noted, found) {
        push_words(text, b" cache ")?;
        return push_number(text, u64::from(found.cache));
    }
    push_counts_unlike(text, noted, found)?;
    push_marks_unlike(text, noted, found)
}

/// The object of a board word.
#[tactic(auto, unfolding(crate::specs::Fields::place_text))]
fn push_place(text: &mut Vec<u8>, word: u64) -> Result<(), NoMemory>
    ensures { OnOk result (text.new.items ≡ text.old.items ++ fields.place_text (board_in word)) }
{
    match board_in(word) {
        None => push_words(text, b"none"),
        Some(board) => push_object(text, board.frame, u64::from(board.index)),
    }
}

/// A board word and what it becomes.
#[tactic(auto, unfolding(crate::specs::Fields::board_change))]
pub(crate) fn push_board_change(text: &mut Vec<u8>, old: u64, new: u64) -> Result<(), NoMemory>
    ensures { OnOk result (text.new.items ≡ text.old.items ++ fields.board_change old new) }
{
    push_place(text, old)?;
    if old == new {
        return Ok(());
    }
    push_words(text, b"->")?;
    push_place(text, new)
}
