//! The slabs of a cache.

ghost use Rattle.std.specs.Prelude.{◌≡◌, ◌≤◌, ◌<◌, ◌++◌, None, Some, [], codes, length, nat_lt, slice_index_or, IfOk, IsSome, MatchOption, OnOk};
ghost use Rattle.slub_common.specs.Times.{times};
ghost use Rattle.slub_lists.specs.Alloc.{cache_of, checked_of, node_of};
ghost use Rattle.slub_lists.specs.Coherent.{IsCoherent};
ghost use Rattle.slub_red_zone.specs.State as red;
ghost use Rattle.slub_state_text.specs.Fields.{numbered, row, slab_word_text};
ghost use Rattle.slub_state_text.specs.Marks.{AreMarks};
ghost use Rattle.slub_state_text.specs.Slabs.{aside_of, checked_fields, fields_of, is_aside_at, objects_fields, slab_row, slab_rows, word_fields, word_with};

use crate::put::{put, put_field, put_flag, put_head, put_numbered};
use crate::ranges::put_ranges;
use slub_common::no_memory::NoMemory;
use slub_list_machine::lists::Lists;
use slub_list_machine::own_lists::OwnLists;
use slub_lists::lists::Slab;
use slub_red_zone::checked::{CheckedSlabs, Slot};
use slub_red_zone::slab::ObjectState;
use std::alloc::Global;

/// A slab's own freelist, front first.
fn own_items(alloc: Global, frees: &OwnLists, frame: u16) -> Result<Vec<u16>, NoMemory>
    ensures items { IfOk result (λ items. items.items ≡ slice_index_or frees.now frame []) }
    ensures room { IfOk result (λ items. length items.items ≤ 512) }
{
    let mut items = Vec::new(alloc);
    for at in 0..frees.len_of(frame) {
        match frees.get(frame, at) {
            Some(item) => items.push(item)?,
            None => unreachable!(),
        }
    }
    Ok(items)
}

/// What the word of an unchecked slab says, which has this freelist of its own and may be listed.
fn put_word(text: &mut Vec<u8>, slab: &Slab, own: &[u16], listed: bool) -> Result<(), NoMemory>
    requires { length own.now ≤ 512 }
    ensures { OnOk result (text.new.items ≡
        text.old.items ++ slab_word_text (word_with slab.now own.now listed)) }
{
    put_head(text, own)?;
    put_field(
        text,
        b"inuse",
        slab.objects.saturating_sub(own.len() as u32),
    )?;
    put_field(text, b"objects", slab.objects)?;
    put_flag(text, b"frozen", slab.frozen)?;
    put_flag(text, b"listed", listed)
}

/// What the word says, and the freelist.
fn put_plain(text: &mut Vec<u8>, slab: &Slab, own: &[u16], listed: bool) -> Result<(), NoMemory>
    requires { length own.now ≤ 512 }
    ensures { OnOk result (text.new.items ≡
        text.old.items ++ word_fields (word_with slab.now own.now listed) own.now) }
{
    put_word(text, slab, own, listed)?;
    put(text, b" freelist")?;
    put_ranges(text, own)
}

/// The row of an unchecked slab.
fn push_plain(
    text: &mut Vec<u8>,
    frame: u16,
    slab: &Slab,
    own: &[u16],
    listed: bool,
) -> Result<(), NoMemory>
    requires { length own.now ≤ 512 }
    ensures { OnOk result (text.new.items ≡ text.old.items
        ++ row (numbered (codes "slab") frame) (word_fields (word_with slab.now own.now listed) own.now)) }
{
    put_numbered(text, b"slab", u32::from(frame))?;
    put_plain(text, slab, own, listed)?;
    put(text, b"\n")
}

/// The free objects of a checked slab, the first given first; none where no slab is there.
fn free_of(slabs: &CheckedSlabs, frame: u16) -> &[u16]
    ensures { result.now ≡ (red.slab_of slabs.now frame).free }
{
    if slabs.has(frame) {
        slabs.free_of(frame)
    } else {
        &[]
    }
}

/// How many objects a checked slab has; none where no slab is there.
fn objects_of(slabs: &CheckedSlabs, frame: u16) -> u16
    ensures { result ≡ red.objects_in (red.slab_of slabs.now frame) }
{
    if slabs.has(frame) {
        slabs.objects_of(frame)
    } else {
        0
    }
}

/// Whether an object of a checked slab is set aside.
fn is_aside_at(slabs: &CheckedSlabs, frame: u16, index: u16) -> bool
    ensures { result ≡ is_aside_at (red.slab_of slabs.now frame) index }
{
    match slabs.state(Slot { frame, index }) {
        Some(ObjectState::Aside) => true,
        Some(ObjectState::Free | ObjectState::Used) => false,
        None => false,
    }
}

/// The objects of a checked slab that are set aside, by rising index.
fn aside_of(alloc: Global, slabs: &CheckedSlabs, frame: u16) -> Result<Vec<u16>, NoMemory>
    ensures { IfOk result (λ aside. aside.items ≡ aside_of (red.slab_of slabs.now frame)) }
{
    let mut aside = Vec::new(alloc);
    for index in 0..objects_of(slabs, frame) {
        if is_aside_at(slabs, frame, index) {
            aside.push(index)?;
        }
    }
    Ok(aside)
}

/// What a checked slab has.
fn put_objects(
    text: &mut Vec<u8>,
    objects: u32,
    free: &[u16],
    aside: &[u16],
) -> Result<(), NoMemory>
    ensures { OnOk result (text.new.items ≡
        text.old.items ++ objects_fields objects free.now aside.now) }
{
    put_field(text, b"objects", objects)?;
    put(text, b" free")?;
    put_ranges(text, free)?;
    put(text, b" aside")?;
    put_ranges(text, aside)
}

/// The row of a checked slab.
fn push_checked(
    text: &mut Vec<u8>,
    frame: u16,
    slab: &Slab,
    slabs: &CheckedSlabs,
) -> Result<(), NoMemory>
    ensures { OnOk result (text.new.items ≡ text.old.items
        ++ row (numbered (codes "slab") frame) (checked_fields slab.now (red.slab_of slabs.now frame))) }
{
    let aside = aside_of(*text.allocator(), slabs, frame)?;
    put_numbered(text, b"slab", u32::from(frame))?;
    put_objects(text, slab.objects, free_of(slabs, frame), aside.as_slice())?;
    put(text, b"\n")
}

/// By frame, whether the slab is on a node's list.
fn listed_marks(alloc: Global, frames: u32, node: &[u16]) -> Result<Vec<bool>, NoMemory>
    ensures length { IfOk result (λ marks. length marks.items ≡ frames) }
    ensures marks { IfOk result (λ marks. AreMarks node.now marks.items) }
{
    let mut marks = vec![in alloc; false; frames as usize]?;
    for frame in node {
        let place = usize::from(*frame);
        if place < marks.len() {
            marks[place] = true;
        }
    }
    Ok(marks)
}

/// The slabs of a cache, if it is checked.
pub(crate) fn checked_at(lists: &Lists, cache: u8) -> Option<&CheckedSlabs>
    ensures { MatchOption result (checked_of lists.now cache ≡ None)
        (λ slabs. checked_of lists.now cache ≡ Some slabs.now) }
{
    lists.checked().get(cache as usize)?.as_ref()
}

/// The row of a slab of a cache.
fn push_some(
    text: &mut Vec<u8>,
    lists: &Lists,
    frame: u16,
    slab: &Slab,
    listed: bool,
) -> Result<(), NoMemory>
    requires { listed ≡ nat_lt 0 (times frame (node_of lists.now slab.now.cache)) }
    ensures { OnOk result (text.new.items ≡ text.old.items ++ row (numbered (codes "slab") frame)
        (fields_of lists.now (checked_of lists.now slab.now.cache) frame slab.now)) }
{
    match checked_at(lists, slab.cache) {
        Some(slabs) => push_checked(text, frame, slab, slabs),
        None => {
            let own = own_items(*text.allocator(), lists.frees(), frame)?;
            push_plain(text, frame, slab, own.as_slice(), listed)
        }
    }
}

/// The row of the slab that begins at a frame, if it is one of the cache.
fn push_slab(
    text: &mut Vec<u8>,
    lists: &Lists,
    cache: u8,
    frame: u16,
    listed: &[bool],
) -> Result<(), NoMemory>
    requires frame { frame < length listed.now }
    requires marks { AreMarks (node_of lists.now cache) listed.now }
    ensures { OnOk result (text.new.items ≡ text.old.items ++ slab_row lists.now cache frame) }
{
    match lists.slabs().get(usize::from(frame)) {
        Some(Some(slab)) if slab.cache == cache => {
            push_some(text, lists, frame, slab, listed[usize::from(frame)])
        }
        _ => Ok(()),
    }
}

/// The rows of a cache's slabs, by frame.
pub(crate) fn push_slabs(text: &mut Vec<u8>, lists: &Lists, cache: u8) -> Result<(), NoMemory>
    requires coherent { IsCoherent lists.now }
    requires live { IsSome (cache_of lists.now cache) }
    ensures { OnOk result (text.new.items ≡ text.old.items ++ slab_rows lists.now cache) }
{
    let node = lists.nodes()[usize::from(cache)].frames();
    let listed = listed_marks(*text.allocator(), lists.frames(), node)?;
    for frame in 0..lists.frames() {
        push_slab(text, lists, cache, frame as u16, listed.as_slice())?;
    }
    Ok(())
}
