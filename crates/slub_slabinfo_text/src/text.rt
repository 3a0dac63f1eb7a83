//! Replies, items, slabinfo and the total as lines.

ghost use Rattle.std.specs.Prelude.{◌≡◌, ℕ, ◌+◌, ◌<◌, ◌≤◌, ◌∷◌, ◌++◌, Err, IfOk, OnOk, codes, flat_map, length, replicate, slice_index, vec_capacity};
ghost use Rattle.std.specs.Fmt.{decimal, signed_decimal};
ghost use Rattle.slub_slabinfo_text.specs.Texts.{IsNamed, act_words, answer_text, column, damage_line, damage_words, header_text, hex_byte, hex_digit, info_text, is_ok_answer, item_line, layout_lines, left, number_line, reply_answer, reply_text, row_numbers, row_objects, row_slabs, row_text, slab_lines, slot_lines, total_line, word_text, zone_text};

use crate::counts::{Counts, InfoRow};
use itoa::Buffer;
use slub_common::no_memory::NoMemory;
use slub_object_layout::layout::{Layout, LayoutRefusal};
use slub_object_layout::name::Name;
use slub_trace::damage::{Damage, Report, Zone};
use slub_trace::event::{Act, Event};
use slub_trace::reply::Reply;
use std::alloc::Global;

/// What an item was that is answered by one line.
#[derive(Clone, Copy, Debug, PartialEq, Eq)]
pub enum ItemWord {
    Cache,
    Shrink,
    Destroy,
    Tune,
}

/// The answer to such an item.
#[derive(Clone, Copy, Debug)]
pub enum ItemAnswer {
    /// A cache was made.
    Fresh,
    /// The name became one more name of the cache with this title.
    MergedWith(Name),
    NameTaken,
    TooMany,
    BadSize,
    BadAlign,
    BadFlags,
    SlabsRemain,
    NoSlabs,
    Destroyed,
    NameDropped,
    /// So many objects are held or set aside.
    Busy(u32),
    NoSuchCache,
    Set,
    Checked,
}

/// The most bytes that a line of a reply or of a damage has, with its line feed.
pub const LINE_MAX: usize = 128;

/// The line that answers an event, with its line feed, is put behind a text that has room for it. The
/// cache of a trim is named by its place in `names`.
#[inline]
pub fn push_reply_line(text: &mut Vec<u8>, names: &[Name], event: &Event, reply: &Reply)
    requires named { IsNamed names.now event.now.act }
    requires room { length text.old.items + 128 ≤ vec_capacity text.old }
    ensures line { text.new.items ≡
        text.old.items ++ reply_text names.now event.now reply.now }
    ensures capacity { vec_capacity text.old ≤ vec_capacity text.new }
{
    put_event(text, names, event);
    put(text, b": ");
    put_reply(text, reply);
    put(text, b"\n");
}

/// What the line of an event says before the answer.
#[inline]
fn put_event(text: &mut Vec<u8>, names: &[Name], event: &Event)
    requires named { IsNamed names.now event.now.act }
    requires room { length text.old.items + 47 ≤ vec_capacity text.old }
    ensures items { text.new.items ≡
        text.old.items ++ act_words names.now event.now.cpu event.now.act }
    ensures short { length text.new.items ≤ length text.old.items + 47 }
    ensures capacity { vec_capacity text.old ≤ vec_capacity text.new }
{
    match &event.act {
        Act::Alloc { cache: _, object } => put_numbered(text, b"alloc ", u64::from(*object)),
        Act::Free { object } => put_numbered(text, b"free ", u64::from(*object)),
        Act::Write {
            word,
            object,
            value: _,
        } => put_word_of(text, b"write ", *object, *word),
        Act::Read { word, object } => put_word_of(text, b"read ", *object, *word),
        Act::Poke {
            object,
            offset,
            byte: _,
        } => put_poke(text, *object, *offset),
        Act::Trim { cache } => put_trim(text, &names[*cache as usize]),
        Act::Flush => put_numbered(text, b"flush ", u64::from(event.cpu)),
    }
}

/// Words and a number.
#[inline(always)]
fn put_numbered(text: &mut Vec<u8>, words: &[u8], n: u64)
    requires { length text.old.items + length words.now + 20 ≤ vec_capacity text.old }
    ensures items { text.new.items ≡ text.old.items ++ words.now ++ decimal n }
    ensures short { length text.new.items ≤ length text.old.items + length words.now + 20 }
    ensures capacity { vec_capacity text.old ≤ vec_capacity text.new }
{
    put(text, words);
    put(text, Buffer::new().format(n).as_bytes());
}

/// What the line of a write or a read says before the answer.
fn put_word_of(text: &mut Vec<u8>, words: &[u8], object: u32, word: u16)
    requires { length text.old.items + length words.now + 41 ≤ vec_capacity text.old }
    ensures items { text.new.items ≡
        text.old.items ++ words.now ++ decimal object ++ 32 ∷ decimal word }
    ensures short { length text.new.items ≤ length text.old.items + length words.now + 41 }
    ensures capacity { vec_capacity text.old ≤ vec_capacity text.new }
{
    put_numbered(text, words, u64::from(object));
    put_numbered(text, b" ", u64::from(word));
}

/// What the line of a poke says before the answer.
fn put_poke(text: &mut Vec<u8>, object: u32, offset: i32)
    requires { length text.old.items + 37 ≤ vec_capacity text.old }
    ensures items { text.new.items ≡
        text.old.items ++ codes "poke " ++ decimal object ++ 32 ∷ signed_decimal offset }
    ensures short { length text.new.items ≤ length text.old.items + 37 }
    ensures capacity { vec_capacity text.old ≤ vec_capacity text.new }
{
    put_numbered(text, b"poke ", u64::from(object));
    put_signed(text, b" ", offset);
}

/// Words and a number with its sign, if it is below 0.
fn put_signed(text: &mut Vec<u8>, words: &[u8], n: i32)
    requires { length text.old.items + length words.now + 11 ≤ vec_capacity text.old }
    ensures items { text.new.items ≡ text.old.items ++ words.now ++ signed_decimal n }
    ensures short { length text.new.items ≤ length text.old.items + length words.now + 11 }
    ensures capacity { vec_capacity text.old ≤ vec_capacity text.new }
{
    put(text, words);
    put(text, Buffer::new().format(n).as_bytes());
}

/// What the line of a trim says before the answer.
fn put_trim(text: &mut Vec<u8>, name: &Name)
    requires { length text.old.items + 36 ≤ vec_capacity text.old }
    ensures items { text.new.items ≡ text.old.items ++ codes "trim " ++ name.now }
    ensures short { length text.new.items ≤ length text.old.items + 36 }
    ensures capacity { vec_capacity text.old ≤ vec_capacity text.new }
{
    put(text, b"trim ");
    put_name(text, name);
}

/// A name.
#[tactic(auto, using(crate::proofs::Lines::name_is_short))]
fn put_name(text: &mut Vec<u8>, name: &Name)
    requires { length text.old.items + 31 ≤ vec_capacity text.old }
    ensures items { text.new.items ≡ text.old.items ++ name.now }
    ensures short { length text.new.items ≤ length text.old.items + 31 }
    ensures capacity { vec_capacity text.old ≤ vec_capacity text.new }
{
    put(text, name.as_bytes());
}

#[inline]
fn put_reply(text: &mut Vec<u8>, reply: &Reply)
    requires { length text.old.items + 53 ≤ vec_capacity text.old }
    ensures items { text.new.items ≡ text.old.items ++ reply_answer reply.now }
    ensures short { length text.new.items ≤ length text.old.items + 53 }
    ensures capacity { vec_capacity text.old ≤ vec_capacity text.new }
{
    match reply {
        Reply::Given(address) => put_numbered(text, b"given ", u64::from(*address)),
        Reply::NoFrames => put(text, b"no frames"),
        Reply::NoSuchCache => put(text, b"no such cache"),
        Reply::NoMemory => put(text, b"no memory"),
        Reply::Freed(address) => put_numbered(text, b"freed ", u64::from(*address)),
        Reply::NotHeld => put(text, b"not held"),
        Reply::Corrupt(damage) => put_corrupt(text, damage),
        Reply::Wrote => put(text, b"wrote"),
        Reply::Value(value) => put_numbered(text, b"value ", *value),
        Reply::OutOfObject => put(text, b"out of object"),
        Reply::Poked => put(text, b"poked"),
        Reply::OutOfSlot => put(text, b"out of slot"),
        Reply::NotChecked => put(text, b"not checked"),
        Reply::IdsSpent(tid) => put_numbered(text, b"ids spent ", u64::from(*tid)),
        Reply::Trimmed(slabs) => put_numbered(text, b"discarded ", u64::from(*slabs)),
        Reply::Checked => put(text, b"checked"),
        Reply::Flushed(slabs) => put_numbered(text, b"moved ", u64::from(*slabs)),
    }
}

fn put_corrupt(text: &mut Vec<u8>, damage: &Damage)
    requires { length text.old.items + 53 ≤ vec_capacity text.old }
    ensures items { text.new.items ≡
        text.old.items ++ reply_answer (Reply.Corrupt damage.now) }
    ensures short { length text.new.items ≤ length text.old.items + 53 }
    ensures capacity { vec_capacity text.old ≤ vec_capacity text.new }
{
    put(text, b"corrupt ");
    put_damage(text, damage);
}

/// Words, where there is room for them.
#[inline(always)]
fn put(text: &mut Vec<u8>, words: &[u8])
    requires { length text.old.items + length words.now ≤ vec_capacity text.old }
    ensures items { text.new.items ≡ text.old.items ++ words.now }
    ensures length { length text.new.items ≡ length text.old.items + length words.now }
    ensures capacity { vec_capacity text.old ≤ vec_capacity text.new }
{
    match text.extend_from_slice(words) {
        Ok(()) => {}
        Err(_) => unreachable!(),
    }
}

/// Whether an answer is no refusal: its line is written with `--replies` alone.
pub fn is_ok_answer(answer: &ItemAnswer) -> bool
    ensures { result ≡ is_ok_answer answer.now }
{
    matches!(
        answer,
        ItemAnswer::Fresh
            | ItemAnswer::MergedWith(_)
            | ItemAnswer::SlabsRemain
            | ItemAnswer::NoSlabs
            | ItemAnswer::Destroyed
            | ItemAnswer::NameDropped
            | ItemAnswer::Set
    )
}

/// The line of a damage, with the title of its cache, is put behind a text that has room for it.
pub fn push_damage_line(text: &mut Vec<u8>, title: &Name, report: &Report)
    requires room { length text.old.items + 128 ≤ vec_capacity text.old }
    ensures line { text.new.items ≡ text.old.items ++ damage_line title.now report.now }
    ensures capacity { vec_capacity text.old ≤ vec_capacity text.new }
{
    put(text, b"damage ");
    put_name(text, title);
    put_numbered(text, b" ", u64::from(report.address));
    put(text, b": ");
    put_damage(text, &report.damage);
    put(text, b"\n");
}

/// What was found: the zone, where the byte is from the object's address, the byte and the wanted one.
fn put_damage(text: &mut Vec<u8>, damage: &Damage)
    requires { length text.old.items + 45 ≤ vec_capacity text.old }
    ensures items { text.new.items ≡ text.old.items ++ damage_words damage.now }
    ensures short { length text.new.items ≤ length text.old.items + 45 }
    ensures capacity { vec_capacity text.old ≤ vec_capacity text.new }
{
    put(text, zone_bytes(damage.zone));
    put_bytes(text, damage.offset, damage.found, damage.wanted);
}

fn zone_bytes(zone: Zone) -> &'static [u8]
    ensures text { result.now ≡ zone_text zone }
    ensures short { length result.now ≤ 7 }
{
    match zone {
        Zone::Left => b"left",
        Zone::Right => b"right",
        Zone::Poison => b"poison",
        Zone::End => b"end",
        Zone::Padding => b"padding",
    }
}

/// The offset in decimal with its sign, and the two bytes.
fn put_bytes(text: &mut Vec<u8>, offset: i32, found: u8, wanted: u8)
    requires { length text.old.items + 38 ≤ vec_capacity text.old }
    ensures items { text.new.items ≡ text.old.items ++ codes " offset " ++ signed_decimal offset
        ++ codes " found " ++ hex_byte found ++ codes " wanted " ++ hex_byte wanted }
    ensures short { length text.new.items ≤ length text.old.items + 38 }
    ensures capacity { vec_capacity text.old ≤ vec_capacity text.new }
{
    put_signed(text, b" offset ", offset);
    put(text, b" found ");
    put_hex(text, found);
    put(text, b" wanted ");
    put_hex(text, wanted);
}

/// A byte as two hexadecimal digits in lower case.
fn put_hex(text: &mut Vec<u8>, byte: u8)
    requires { length text.old.items + 2 ≤ vec_capacity text.old }
    ensures items { text.new.items ≡ text.old.items ++ hex_byte byte }
    ensures length { length text.new.items ≡ length text.old.items + 2 }
    ensures capacity { vec_capacity text.old ≤ vec_capacity text.new }
{
    put(text, &[hex_digit(byte / 16), hex_digit(byte % 16)]);
}

/// A hexadecimal digit in lower case.
#[inline(always)]
fn hex_digit(n: u8) -> u8
    requires { n < 16 }
    ensures { result ≡ hex_digit n }
{
    if n < 10 { b'0' + n } else { b'a' - 10 + n }
}

/// The twelve lines of a layout, or the line of its refusal, are put behind a text.
#[tactic(auto, unfolding(crate::specs::Texts::layout_lines))]
pub fn push_layout(
    text: &mut Vec<u8>,
    answer: &Result<Layout, LayoutRefusal>,
) -> Result<(), NoMemory>
    ensures { OnOk result (text.new.items ≡ text.old.items ++ layout_lines answer.now) }
{
    match answer {
        Ok(layout) => {
            push_slot(text, layout)?;
            push_slab(text, layout)
        }
        Err(refusal) => push_words(text, refusal_bytes(*refusal)),
    }
}

/// The lines on a slot.
fn push_slot(text: &mut Vec<u8>, layout: &Layout) -> Result<(), NoMemory>
    ensures { OnOk result (text.new.items ≡ text.old.items ++ slot_lines layout.now) }
{
    push_number(text, b"object_size", layout.object_size)?;
    push_number(text, b"inuse", layout.inuse)?;
    push_number(text, b"offset", layout.offset)?;
    push_number(text, b"left_pad", layout.left_pad)?;
    push_number(text, b"size", layout.size)?;
    push_number(text, b"align", layout.align)
}

/// The lines on slabs.
fn push_slab(text: &mut Vec<u8>, layout: &Layout) -> Result<(), NoMemory>
    ensures { OnOk result (text.new.items ≡ text.old.items ++ slab_lines layout.now) }
{
    push_number(text, b"order", layout.order)?;
    push_number(text, b"objects", layout.objects)?;
    push_number(text, b"min_order", layout.min_order)?;
    push_number(text, b"min_objects", layout.min_objects_slab)?;
    push_number(text, b"min_partial", layout.min_partial)?;
    push_number(text, b"cpu_partial_slabs", layout.cpu_partial_slabs)
}

/// Words and a number.
fn push_numbered(text: &mut Vec<u8>, words: &[u8], n: u64) -> Result<(), NoMemory>
    ensures { OnOk result (text.new.items ≡ text.old.items ++ words.now ++ decimal n) }
{
    push_words(text, words)?;
    push_words(text, Buffer::new().format(n).as_bytes())
}

/// A line of a name and a number.
fn push_number(text: &mut Vec<u8>, name: &[u8], n: u32) -> Result<(), NoMemory>
    ensures { OnOk result (text.new.items ≡ text.old.items ++ number_line name.now n) }
{
    push_words(text, name)?;
    push_numbered(text, b" ", u64::from(n))?;
    push_words(text, b"\n")
}

#[tactic(auto, unfolding(crate::specs::Texts::layout_lines))]
fn refusal_bytes(refusal: LayoutRefusal) -> &'static [u8]
    ensures { result.now ≡ layout_lines (Err refusal) }
{
    match refusal {
        LayoutRefusal::BadSize => b"layout: bad size\n",
        LayoutRefusal::BadAlign => b"layout: bad alignment\n",
        LayoutRefusal::BadFlags => b"layout: bad flags\n",
    }
}

/// The line that answers an item, with its line feed, is put behind a text.
pub fn push_item_line(
    text: &mut Vec<u8>,
    word: ItemWord,
    name: &Name,
    answer: &ItemAnswer,
) -> Result<(), NoMemory>
    ensures { OnOk result (text.new.items ≡
        text.old.items ++ item_line word name.now answer.now) }
{
    push_words(text, word_bytes(word))?;
    push_words(text, b" ")?;
    push_words(text, name.as_bytes())?;
    push_words(text, b": ")?;
    push_answer(text, answer)?;
    push_words(text, b"\n")
}

fn word_bytes(word: ItemWord) -> &'static [u8]
    ensures { result.now ≡ word_text word }
{
    match word {
        ItemWord::Cache => b"cache",
        ItemWord::Shrink => b"shrink",
        ItemWord::Destroy => b"destroy",
        ItemWord::Tune => b"tune",
    }
}

fn push_answer(text: &mut Vec<u8>, answer: &ItemAnswer) -> Result<(), NoMemory>
    ensures { OnOk result (text.new.items ≡ text.old.items ++ answer_text answer.now) }
{
    match answer {
        ItemAnswer::Fresh => push_words(text, b"new"),
        ItemAnswer::MergedWith(title) => push_merged(text, title),
        ItemAnswer::NameTaken => push_words(text, b"name taken"),
        ItemAnswer::TooMany => push_words(text, b"too many caches"),
        ItemAnswer::BadSize => push_words(text, b"bad size"),
        ItemAnswer::BadAlign => push_words(text, b"bad alignment"),
        ItemAnswer::BadFlags => push_words(text, b"bad flags"),
        ItemAnswer::SlabsRemain => push_words(text, b"slabs remain"),
        ItemAnswer::NoSlabs => push_words(text, b"no slabs"),
        ItemAnswer::Destroyed => push_words(text, b"destroyed"),
        ItemAnswer::NameDropped => push_words(text, b"name dropped"),
        ItemAnswer::Busy(objects) => push_numbered(text, b"busy ", u64::from(*objects)),
        ItemAnswer::NoSuchCache => push_words(text, b"no such cache"),
        ItemAnswer::Set => push_words(text, b"set"),
        ItemAnswer::Checked => push_words(text, b"checked"),
    }
}

#[inline(always)]
fn push_words(text: &mut Vec<u8>, words: &[u8]) -> Result<(), NoMemory>
    ensures { OnOk result (text.new.items ≡ text.old.items ++ words.now) }
{
    text.extend_from_slice(words)?;
    Ok(())
}

fn push_merged(text: &mut Vec<u8>, title: &Name) -> Result<(), NoMemory>
    ensures { OnOk result (text.new.items ≡
        text.old.items ++ answer_text (ItemAnswer.MergedWith title.now)) }
{
    text.extend_from_slice(b"merged with ")?;
    text.extend_from_slice(title.as_bytes())?;
    Ok(())
}

/// Slabinfo, the two header lines and a line for each row in the given order, is put behind a text.
pub fn push_slabinfo(text: &mut Vec<u8>, rows: &[InfoRow]) -> Result<(), NoMemory>
    ensures { OnOk result (text.new.items ≡ text.old.items ++ info_text rows.now) }
{
    push_header(text)?;
    push_rows(text, rows)?;
    Ok(())
}

fn push_rows(text: &mut Vec<u8>, rows: &[InfoRow]) -> Result<(), NoMemory>
    ensures { OnOk result (text.new.items ≡ text.old.items ++ flat_map row_text rows.now) }
{
    for row in rows {
        push_row(text, row)?;
    }
    Ok(())
}

/// The two header lines (`print_slabinfo_header`).
fn push_header(text: &mut Vec<u8>) -> Result<(), NoMemory>
    ensures { OnOk result (text.new.items ≡ text.old.items ++ header_text) }
{
    push_words(text, b"slabinfo - version: 2.1\n")?;
    push_words(
        text,
        b"# name            <active_objs> <num_objs> <objsize> <objperslab> <pagesperslab> ",
    )?;
    push_words(text, b": tunables <limit> <batchcount> <sharedfactor> ")?;
    push_words(
        text,
        b": slabdata <active_slabs> <num_slabs> <sharedavail>\n",
    )
}

/// The line of a cache (`cache_show`).
fn push_row(text: &mut Vec<u8>, row: &InfoRow) -> Result<(), NoMemory>
    ensures { OnOk result (text.new.items ≡ text.old.items ++ row_text row.now) }
{
    push_left(text, 17, row.title.as_bytes())?;
    push_numbers(text, &row.counts)
}

/// The numbers of a cache, after its title.
fn push_numbers(text: &mut Vec<u8>, counts: &Counts) -> Result<(), NoMemory>
    ensures { OnOk result (text.new.items ≡ text.old.items ++ row_numbers counts.now) }
{
    push_objects(text, counts)?;
    push_words(text, b" : tunables    0    0    0 : slabdata")?;
    push_slabs(text, counts.num_slabs)?;
    Ok(())
}

/// The columns on the objects of a cache.
fn push_objects(text: &mut Vec<u8>, counts: &Counts) -> Result<(), NoMemory>
    ensures { OnOk result (text.new.items ≡ text.old.items ++ row_objects counts.now) }
{
    push_column(text, 6, counts.active_objs)?;
    push_column(text, 6, counts.num_objs)?;
    push_column(text, 6, u64::from(counts.objsize))?;
    push_column(text, 4, u64::from(counts.objperslab))?;
    push_column(text, 4, u64::from(counts.pagesperslab))
}

/// The columns on the slabs of a cache, all of which are active, and the end of the line.
fn push_slabs(text: &mut Vec<u8>, slabs: u64) -> Result<(), NoMemory>
    ensures { OnOk result (text.new.items ≡ text.old.items ++ row_slabs slabs) }
{
    push_column(text, 6, slabs)?;
    push_column(text, 6, slabs)?;
    push_words(text, b"      0\n")?;
    Ok(())
}

/// A space, and a number with spaces before it, up to this width; a longer one is not cut.
fn push_column(text: &mut Vec<u8>, width: usize, n: u64) -> Result<(), NoMemory>
    ensures { OnOk result (text.new.items ≡ text.old.items ++ column width n) }
{
    let mut buffer = Buffer::new();
    let digits = buffer.format(n);
    text.push(b' ')?;
    push_spaces(text, width.saturating_sub(digits.len()))?;
    push_words(text, digits.as_bytes())
}

/// A text with spaces behind it, up to this width; a longer one is not cut.
fn push_left(text: &mut Vec<u8>, width: usize, words: &[u8]) -> Result<(), NoMemory>
    ensures { OnOk result (text.new.items ≡ text.old.items ++ left width words.now) }
{
    push_words(text, words)?;
    push_spaces(text, width.saturating_sub(words.len()))
}

fn push_spaces(text: &mut Vec<u8>, count: usize) -> Result<(), NoMemory>
    ensures { OnOk result (text.new.items ≡ text.old.items ++ replicate count 32) }
{
    for _ in 0..count {
        text.push(b' ')?;
    }
    Ok(())
}

/// The total is put behind a text: how many objects were given and freed, and what the live caches
/// have of live, free and set-aside objects, frozen slabs and slabs; then the free frames.
pub fn push_total(text: &mut Vec<u8>, numbers: &[u64; 8]) -> Result<(), NoMemory>
    ensures { let at = λ (n : ℕ). slice_index numbers.now n in OnOk result (text.new.items ≡
        text.old.items
        ++ total_line (at 0) (at 1) (at 2) (at 3) (at 4) (at 5) (at 6) (at 7)) }
{
    let line = total_text(*text.allocator(), numbers)?;
    push_words(text, line.as_slice())
}

/// The line of the total.
fn total_text(alloc: Global, numbers: &[u64; 8]) -> Result<Vec<u8>, NoMemory>
    ensures { let at = λ (n : ℕ). slice_index numbers.now n in IfOk result (λ text. text.items ≡
        total_line (at 0) (at 1) (at 2) (at 3) (at 4) (at 5) (at 6) (at 7)) }
{
    let [given, freed, live, free, aside, frozen, slabs, frames] = *numbers;
    let text = format!(in alloc;
        "total given {given} freed {freed} live {live} free {free} aside {aside} frozen {frozen} slabs {slabs} frames {frames}\n"
    )?;
    Ok(text.into_bytes())
}
