//! The lines of what was done.

ghost use Rattle.std.specs.Prelude.{◌≡◌, ◌++◌, flat_map, OnOk};
ghost use Rattle.slub_slabinfo_text.specs.Lines.{answer_line, created_answer, destroyed_answer, found_text, shrunk_answer, tuned_answer};
ghost use Rattle.slub_slabinfo_text.specs.Text.{total_text};

use crate::journal::{Found, Total};
use crate::text::{
    ItemAnswer, ItemWord, LINE_MAX, is_ok_answer, push_damage_line, push_item_line, push_total,
};
use slub_common::no_memory::NoMemory;
use slub_common::no_such_cache::NoSuchCache;
use slub_object_layout::layout::LayoutRefusal;
use slub_object_layout::name::Name;
use slub_trace::create::{CreateRefusal, Created};
use slub_trace::destroy::{DestroyRefusal, Destroyed};
use slub_trace::tune::TuneRefusal;

/// What the line of a creation says.
pub fn created_answer(creation: &Result<Created, CreateRefusal>) -> ItemAnswer
    ensures { result ≡ created_answer creation.now }
{
    match creation {
        Ok(Created::New(_)) => ItemAnswer::Fresh,
        Ok(Created::Merged { cache: _, title }) => ItemAnswer::MergedWith(*title),
        Err(CreateRefusal::NameTaken) => ItemAnswer::NameTaken,
        Err(CreateRefusal::TooMany) => ItemAnswer::TooMany,
        Err(CreateRefusal::Layout(LayoutRefusal::BadSize)) => ItemAnswer::BadSize,
        Err(CreateRefusal::Layout(LayoutRefusal::BadAlign)) => ItemAnswer::BadAlign,
        Err(CreateRefusal::Layout(LayoutRefusal::BadFlags)) => ItemAnswer::BadFlags,
    }
}

/// What the line of a shrink says.
pub fn shrunk_answer(shrink: &Result<bool, NoSuchCache>) -> ItemAnswer
    ensures { result ≡ shrunk_answer shrink.now }
{
    match shrink {
        Ok(true) => ItemAnswer::SlabsRemain,
        Ok(false) => ItemAnswer::NoSlabs,
        Err(NoSuchCache) => ItemAnswer::NoSuchCache,
    }
}

/// What the line of a destruction says.
pub fn destroyed_answer(destruction: &Result<Destroyed, DestroyRefusal>) -> ItemAnswer
    ensures { result ≡ destroyed_answer destruction.now }
{
    match destruction {
        Ok(Destroyed::NameDropped) => ItemAnswer::NameDropped,
        Ok(Destroyed::Gone) => ItemAnswer::Destroyed,
        Err(DestroyRefusal::NoSuchCache) => ItemAnswer::NoSuchCache,
        Err(DestroyRefusal::Busy(objects)) => ItemAnswer::Busy(*objects),
    }
}

/// What the line of a tune says.
pub fn tuned_answer(tune: &Result<(), TuneRefusal>) -> ItemAnswer
    ensures { result ≡ tuned_answer tune.now }
{
    match tune {
        Ok(()) => ItemAnswer::Set,
        Err(TuneRefusal::NoSuchCache) => ItemAnswer::NoSuchCache,
        Err(TuneRefusal::Checked) => ItemAnswer::Checked,
    }
}

/// The line of an item's answer, if it is to be written.
pub fn push_answer(
    text: &mut Vec<u8>,
    word: ItemWord,
    name: &Name,
    answer: &ItemAnswer,
    replies: bool,
) -> Result<(), NoMemory>
    ensures { OnOk result (text.new.items ≡
        text.old.items ++ answer_line replies word name.now answer.now) }
{
    if replies || !is_ok_answer(answer) {
        push_item_line(text, word, name, answer)
    } else {
        Ok(())
    }
}

/// The lines of what was found damaged.
pub fn push_damages(text: &mut Vec<u8>, damages: &[Found]) -> Result<(), NoMemory>
    ensures { OnOk result (text.new.items ≡ text.old.items ++ flat_map found_text damages.now) }
{
    for found in damages {
        text.reserve(LINE_MAX)?;
        push_damage_line(text, &found.title, &found.report);
    }
    Ok(())
}

/// The total line is put behind a text.
pub fn push_sums(text: &mut Vec<u8>, total: &Total) -> Result<(), NoMemory>
    ensures { OnOk result (text.new.items ≡ text.old.items ++ total_text total.now) }
{
    let numbers = [
        total.given,
        total.freed,
        total.live,
        total.free,
        total.aside,
        total.frozen,
        total.slabs,
        total.frames,
    ];
    push_total(text, &numbers)
}
