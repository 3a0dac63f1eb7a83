//! Slabs and their own freelists, by words and by the values of checked caches.

ghost use Rattle.std.specs.Prelude.{◌≡◌, ℕ, ◌<◌, ◌≤◌, [], length, None, slice_index_or};
ghost use Rattle.slub_core.specs.Values.{value_in, values_of};
ghost use Rattle.slub_open_close.specs.Reads.{slab_at, slab_in_value, slab_in_values, slab_or, own_at};

use crate::walks::walk_own;
use slub_core::guarded::Guarded;
use slub_core::setup::Setup;
use slub_core::words::slab_in;
use slub_list_machine::own_lists::OwnLists;
use slub_lists::lists::Slab;
use slub_schedule::table::Table;
use slub_words::memory::Memory;
use slub_words::slab::SlabWord;

/// How many locks there are: the pool's, and one for each cache.
const LOCKS: u8 = 33;

/// Writes the slabs of a machine by frame: each by its word, or by the value of its checked cache.
pub fn close_slabs(setup: &Setup, table: &Table, values: &[Guarded], slabs: &mut [Option<Slab>])
    requires { length slabs.old ≤ 4096 }
    ensures { (frame : ℕ) → frame < length slabs.old → slice_index_or slabs.new frame None ≡ slab_at setup.now table.now.words (values_of values.now) frame }
{
    for (frame, slab) in slabs.iter_mut().enumerate() {
        let by_word = slab_in(table.word(1057 + frame));
        *slab = slab_or(setup, by_word, slab_in_values(values, frame as u16));
    }
}

/// Walks the own freelists of the slabs of so many frames.
pub fn close_frees(setup: &Setup, table: &Table, memory: &Memory, frames: u32, frees: &mut OwnLists)
    requires few { frames ≤ 4096 }
    requires lists { length frees.old ≡ frames }
    ensures walked { (frame : ℕ) → frame < frames → slice_index_or frees.new frame [] ≡ own_at setup.now table.now.words memory.now frame }
    ensures lists { length frees.new ≡ frames }
{
    for frame in 0..frames {
        let slab = slab_in(table.word(1057 + frame as usize));
        walk_own(setup, memory, slab.cache, frame as u16, slab.head, frees);
    }
}

/// The slab of a slab word; where that has none, another one.
fn slab_or(setup: &Setup, word: SlabWord, other: Option<Slab>) -> Option<Slab>
    ensures { result ≡ slab_or setup.now word other }
{
    if word.objects == 0 {
        return other;
    }
    let layout = setup.layout(word.cache);
    let objects = u32::from(word.objects);
    let order = if objects == layout.objects {
        layout.order
    } else {
        layout.min_order
    };
    Some(Slab {
        cache: word.cache,
        order,
        objects,
        frozen: word.frozen,
    })
}

/// The slab at a frame by the value of the last lock that has one there.
fn slab_in_values(values: &[Guarded], frame: u16) -> Option<Slab>
    ensures { result ≡ slab_in_values (values_of values.now) 33 frame }
{
    let mut found = None;
    for lock in 0..LOCKS {
        found = slab_behind(values, lock, frame).or(found);
    }
    found
}

/// The slab at a frame by the value of a lock.
fn slab_behind(values: &[Guarded], lock: u8, frame: u16) -> Option<Slab>
    ensures { result ≡ slab_in_value lock (values_of values.now lock) frame }
{
    match values.get(usize::from(lock)) {
        Some(value) => slab_in_value(value, lock, frame),
        None => None,
    }
}

/// The slab at a frame of a checked cache, by what its lock guards.
fn slab_in_value(value: &Guarded, lock: u8, frame: u16) -> Option<Slab>
    ensures { result ≡ slab_in_value lock (value_in value.now) frame }
{
    let Guarded::Checked(slabs) = value else {
        return None;
    };
    if !slabs.has(frame) {
        return None;
    }
    let objects = u32::from(slabs.objects_of(frame));
    let layout = slabs.layout();
    let order = if objects == layout.objects {
        layout.order
    } else {
        layout.min_order
    };
    Some(Slab {
        cache: lock.saturating_sub(1),
        order,
        objects,
        frozen: false,
    })
}
