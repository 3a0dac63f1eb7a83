//! What a CPU has of a cache.

ghost use Rattle.std.specs.Prelude.{◌≡◌, ◌+◌, ◌*◌, ◌<◌, ◌≤◌, ◌++◌, length, IfOk, IsSome, OnOk};
ghost use Rattle.slub_lists.specs.Alloc.{cache_of, lists_of};
ghost use Rattle.slub_lists.specs.Coherent.{IsCoherent};
ghost use Rattle.slub_state_text.specs.Cpus.{cpu_fields, cpu_row, cpu_rows, cpu_text, is_first, list_fields, list_row, list_rows, list_text, tid_of};
ghost use Rattle.slub_law_opening.specs.Opening.{front_of};

use crate::put::{put, put_cpu_label, put_field, put_head, put_slab_field};
use crate::ranges::{put_numbers, put_ranges};
use slub_common::front_list::FrontList;
use slub_common::no_memory::NoMemory;
use slub_list_machine::lists::Lists;
use slub_lists::lists::{CpuLists, FrameList};
use slub_object_layout::name::Name;
use std::alloc::Global;

/// A list, front first.
fn items_of<const ROOM: usize>(alloc: Global, list: &FrontList<ROOM>) -> Result<Vec<u16>, NoMemory>
    ensures items { IfOk result (λ items. items.items ≡ list.now) }
    ensures room { IfOk result (λ items. length items.items ≤ ROOM) }
{
    let mut items = Vec::new(alloc);
    for at in 0..list.len() {
        match list.get(at) {
            Some(item) => items.push(item)?,
            None => unreachable!(),
        }
    }
    Ok(items)
}

/// Whether a CPU's word is as it was when the cache was made.
fn is_first(first: u64, tid: u32, current: Option<u16>) -> bool
    ensures { result ≡ is_first first tid current }
{
    match current {
        Some(_) => false,
        None => u64::from(tid) == first,
    }
}

/// What a CPU's word says, and its freelist.
fn put_cpu(text: &mut Vec<u8>, tid: u32, current: Option<u16>, free: &[u16]) -> Result<(), NoMemory>
    ensures { OnOk result (text.new.items ≡ text.old.items ++ cpu_fields tid current free.now) }
{
    put_field(text, b"tid", tid)?;
    put_slab_field(text, b"slab", current.unwrap_or(0))?;
    put_head(text, free)?;
    put(text, b" freelist")?;
    put_ranges(text, free)
}

/// The row of a CPU's word, if it isn't as it was at first.
fn push_one_cpu(
    text: &mut Vec<u8>,
    title: &Name,
    cpu: u32,
    first: u64,
    tid: u32,
    lists: &CpuLists,
) -> Result<(), NoMemory>
    ensures { OnOk result (text.new.items ≡
        text.old.items ++ cpu_text title.now cpu first tid lists.now) }
{
    if is_first(first, tid, lists.current) {
        return Ok(());
    }
    let free = items_of(*text.allocator(), &lists.free)?;
    put_cpu_label(text, b"cpu", cpu, title)?;
    put_cpu(text, tid, lists.current, free.as_slice())?;
    put(text, b"\n")
}

/// What a CPU's list word says, and the slabs of the list; it has some.
fn put_list(text: &mut Vec<u8>, front: u16, frames: &[u16]) -> Result<(), NoMemory>
    requires few { length frames.now ≤ 4095 }
    requires front { front ≡ front_of frames.now }
    ensures { OnOk result (text.new.items ≡ text.old.items ++ list_fields frames.now) }
{
    put_slab_field(text, b"front", front)?;
    put_field(text, b"count", frames.len() as u32)?;
    put(text, b" slabs")?;
    put_numbers(text, frames)
}

/// The row of a CPU's partial list, if a slab is on it.
fn push_one_list(
    text: &mut Vec<u8>,
    title: &Name,
    cpu: u32,
    partial: &FrameList,
) -> Result<(), NoMemory>
    ensures { OnOk result (text.new.items ≡ text.old.items ++ list_text title.now cpu partial.now) }
{
    let frames = items_of(*text.allocator(), partial)?;
    let frames = frames.as_slice();
    let [front, ..] = frames else {
        return Ok(());
    };
    put_cpu_label(text, b"list", cpu, title)?;
    put_list(text, *front, frames)?;
    put(text, b"\n")
}

/// What a CPU has of a live cache.
fn lists_at(lists: &Lists, cache: u8, cpu: u32) -> &CpuLists
    requires coherent { IsCoherent lists.now }
    requires live { IsSome (cache_of lists.now cache) }
    requires cpu { cpu < lists.now.cpus }
    ensures { result.now ≡ lists_of lists.now cache cpu }
{
    &lists.cpu_lists()[usize::from(cache) * lists.cpus() as usize + cpu as usize]
}

/// The transaction id of a CPU's word.
fn tid_of(ids: &[u32], cache: u8, cpu: u32) -> u32
    requires { cpu < 16 }
    ensures { result ≡ tid_of ids.now cache cpu }
{
    ids.get(16 * usize::from(cache) + cpu as usize)
        .copied()
        .unwrap_or(0)
}

/// The row of a CPU of a live cache.
fn push_cpu(
    text: &mut Vec<u8>,
    lists: &Lists,
    first: u32,
    ids: &[u32],
    title: &Name,
    cache: u8,
    cpu: u32,
) -> Result<(), NoMemory>
    requires coherent { IsCoherent lists.now }
    requires live { IsSome (cache_of lists.now cache) }
    requires cpu { cpu < lists.now.cpus }
    ensures { OnOk result (text.new.items ≡
        text.old.items ++ cpu_row lists.now first ids.now title.now cache cpu) }
{
    let first = u64::from(first) + u64::from(cpu);
    let tid = tid_of(ids, cache, cpu);
    push_one_cpu(text, title, cpu, first, tid, lists_at(lists, cache, cpu))
}

/// The rows of the CPUs of a live cache.
pub(crate) fn push_cpus(
    text: &mut Vec<u8>,
    lists: &Lists,
    first: u32,
    ids: &[u32],
    title: &Name,
    cache: u8,
) -> Result<(), NoMemory>
    requires coherent { IsCoherent lists.now }
    requires live { IsSome (cache_of lists.now cache) }
    ensures { OnOk result (text.new.items ≡
        text.old.items ++ cpu_rows lists.now first ids.now title.now cache) }
{
    for cpu in 0..lists.cpus() {
        push_cpu(text, lists, first, ids, title, cache, cpu)?;
    }
    Ok(())
}

/// The row of a CPU's partial list of a live cache.
fn push_list(
    text: &mut Vec<u8>,
    lists: &Lists,
    title: &Name,
    cache: u8,
    cpu: u32,
) -> Result<(), NoMemory>
    requires coherent { IsCoherent lists.now }
    requires live { IsSome (cache_of lists.now cache) }
    requires cpu { cpu < lists.now.cpus }
    ensures { OnOk result (text.new.items ≡
        text.old.items ++ list_row lists.now title.now cache cpu) }
{
    push_one_list(text, title, cpu, &lists_at(lists, cache, cpu).partial)
}

/// The rows of the CPUs' partial lists of a live cache.
pub(crate) fn push_lists(
    text: &mut Vec<u8>,
    lists: &Lists,
    title: &Name,
    cache: u8,
) -> Result<(), NoMemory>
    requires coherent { IsCoherent lists.now }
    requires live { IsSome (cache_of lists.now cache) }
    ensures { OnOk result (text.new.items ≡ text.old.items ++ list_rows lists.now title.now cache) }
{
    for cpu in 0..lists.cpus() {
        push_list(text, lists, title, cache, cpu)?;
    }
    Ok(())
}
