//! Walks along free pointers and links.

ghost use Rattle.std.specs.Prelude.{◌≡◌, ◌%◌, ◌^◌, ◌<◌, length, slice_index_or, slice_set};
ghost use Rattle.slub_core.specs.Facts.{found_in, pointer_in};
ghost use Rattle.slub_open_close.specs.Reads.{chain_in, string_in};

use slub_core::setup::Setup;
use slub_list_machine::own_lists::OwnLists;
use slub_lists::lists::{FrameList, FreeList};
use slub_schedule::table::Table;
use slub_words::memory::Memory;

/// A slab has so many objects at most, and a machine so many slabs.
const OBJECTS_MAX: usize = 512;

const SLABS_MAX: usize = 4095;

/// Walks along the free pointers of a slab from a head on, into a CPU's freelist.
pub fn walk_chain(
    setup: &Setup,
    memory: &Memory,
    cache: u8,
    frame: u16,
    head: u16,
    free: &mut FreeList,
)
    ensures { free.new ≡ chain_in setup.now memory.now cache frame head }
{
    free.clear();
    let mut next = head;
    while next > 0 && free.len() < OBJECTS_MAX {
        let index = next - 1;
        free.push_back(index);
        next = behind(setup, memory, cache, frame, index);
    }
}

/// Walks along the free pointers of a slab from a head on, into the slab's own freelist. The objects come
/// to the front of it one after the other, so it is turned around at the end.
pub fn walk_own(
    setup: &Setup,
    memory: &Memory,
    cache: u8,
    frame: u16,
    head: u16,
    frees: &mut OwnLists,
)
    requires { frame < length frees.old }
    ensures { frees.new ≡ slice_set frees.old frame (chain_in setup.now memory.now cache frame head) }
{
    frees.clear(frame);
    let mut next = head;
    while next > 0 && frees.len_of(frame) < OBJECTS_MAX {
        let index = next - 1;
        frees.push(frame, index);
        next = behind(setup, memory, cache, frame, index);
    }
    frees.turn(frame);
}

/// The head of the objects behind this one (`get_freepointer`).
fn behind(setup: &Setup, memory: &Memory, cache: u8, frame: u16, index: u16) -> u16
    ensures { result ≡ found_in setup.now cache frame index (slice_index_or memory.now (pointer_in setup.now cache frame index) 0) }
{
    let place = setup.pointer_at(cache, frame, index);
    setup.found_at(cache, frame, index, memory.read(place as usize))
}

/// Walks along the links of a CPU's partial list from its front on (`slab->next`). The links begin
/// at a word of the table.
pub fn walk_string(table: &Table, links: usize, front: u16, partial: &mut FrameList)
    requires { links < 2 ^ 32 }
    ensures { partial.new ≡ string_in table.now.words links front }
{
    partial.clear();
    let mut next = front;
    while next > 0 && partial.len() < SLABS_MAX {
        partial.push_back(next);
        next = low(table.word(links + usize::from(next)));
    }
}

/// The sixteen low bits of a word.
fn low(word: u64) -> u16
    ensures { result ≡ word % 2 ^ 16 }
{
    (word & 0xffff) as u16
}
