//! Freelists are laid into the memory of their objects, and partial lists into the links of their slabs.

ghost use Rattle.std.specs.Prelude.{◌≡◌, ◌+◌, ◌/◌, ◌<◌, ◌≤◌, ℕ, [], length, slice_index_or, slice_set, All, None, MatchOption};
ghost use Rattle.slub_lists.specs.Alloc.{no_lists};
ghost use Rattle.slub_lists.specs.Coherent.{IsConsistent};
ghost use Rattle.slub_list_machine.specs.Parts.{state_of};
ghost use Rattle.slub_core.specs.Setup.{hardened};
ghost use Rattle.slub_core.specs.Facts.{pointer_in};
ghost use Rattle.slub_open_close.specs.Facts.{facts_of};
ghost use Rattle.slub_law_opening.specs.Opening.{lay_each, own_row, cpu_row, string_row, cpu_at, cache_in, frame_of};
ghost use Rattle.slub_open_close.specs.Laying.{read, laid, free_row, IsLayable, own_in, cpu_in, cpu_free_in, string_in};

use slub_core::setup::Setup;
use slub_list_machine::own_lists::OwnLists;
use slub_list_machine::parts::Parts;
use slub_lists::lists::{CpuLists, FrameList, FreeList, Slab};
use slub_words::memory::Memory;

/// What a CPU has of a cache, by the number of their word; None where the machine hasn't the CPU.
pub fn lists_at(cpus: u32, lists: &[CpuLists], number: usize) -> Option<&CpuLists>
    requires { cpus ≤ 16 }
    ensures { MatchOption result (cpu_in cpus lists.now number ≡ no_lists) (λ found. found.now ≡ cpu_in cpus lists.now number) }
{
    let cpus = cpus as usize;
    if number % 16 < cpus {
        lists.get(number / 16 * cpus + number % 16)
    } else {
        None
    }
}

/// Lays the free pointers of a CPU's freelist into the objects of its slab.
fn lay_free(setup: &Setup, cache: u8, frame: u16, free: &FreeList, memory: &mut Memory)
    requires { IsLayable setup.now (length memory.old) cache frame free.now }
    ensures { memory.new ≡ laid (free_row setup.now cache frame free.now) memory.old }
{
    let mut next = 0;
    for at in (0..free.len()).rev() {
        if let Some(index) = free.get(at) {
            next = lay_pointer(setup, cache, frame, index, next, memory);
        }
    }
}

/// Lays those of a slab's own freelist.
fn lay_own_free(setup: &Setup, cache: u8, frame: u16, frees: &OwnLists, memory: &mut Memory)
    requires { IsLayable setup.now (length memory.old) cache frame (slice_index_or frees.now frame []) }
    ensures { memory.new ≡ laid (free_row setup.now cache frame (slice_index_or frees.now frame [])) memory.old }
{
    let mut next = 0;
    for at in (0..frees.len_of(frame)).rev() {
        if let Some(index) = frees.get(frame, at) {
            next = lay_pointer(setup, cache, frame, index, next, memory);
        }
    }
}

/// Lays the free pointer of an object before a head (`set_freepointer`). The object is the head then.
fn lay_pointer(
    setup: &Setup,
    cache: u8,
    frame: u16,
    index: u16,
    head: u16,
    memory: &mut Memory,
) -> u16
    requires index { index < 512 }
    requires inside { pointer_in setup.now cache frame index < length memory.old }
    ensures head { result ≡ index + 1 }
    ensures memory { memory.new ≡ slice_set memory.old (pointer_in setup.now cache frame index) (hardened cache (pointer_in setup.now cache frame index) head) }
{
    let place = setup.pointer_at(cache, frame, index);
    memory.write(place as usize, setup.hardened(cache, place, head));
    index + 1
}

/// Lays the slabs' own freelists.
fn lay_own(setup: &Setup, slabs: &[Option<Slab>], frees: &OwnLists, memory: &mut Memory)
    requires frames { length slabs.now ≤ 4096 }
    requires layable { (frame : ℕ) → IsLayable setup.now (length memory.old) (cache_in (slice_index_or slabs.now frame None)) frame (slice_index_or frees.now frame []) }
    ensures count { length memory.new ≡ length memory.old }
    ensures memory { read memory.new ≡ lay_each (own_in setup.now slabs.now frees.now) (length slabs.now) (read memory.old) }
{
    for frame in 0..slabs.len() {
        let cache = cache_of(&slabs[frame]);
        lay_own_free(setup, cache, frame as u16, frees, memory);
    }
}

/// The cache of a slab; 0 where there is none.
fn cache_of(slab: &Option<Slab>) -> u8
    ensures { result ≡ cache_in slab.now }
{
    match slab {
        Some(slab) => slab.cache,
        None => 0,
    }
}

/// The first frame of a current slab; 0 for none.
pub fn frame_of(current: Option<u16>) -> u16
    ensures { result ≡ frame_of current }
{
    match current {
        Some(frame) => frame,
        None => 0,
    }
}

/// Lays the CPUs' freelists.
fn lay_cpus(setup: &Setup, cpus: u32, lists: &[CpuLists], memory: &mut Memory)
    requires cpus { cpus ≤ 16 }
    requires layable { (n : ℕ) → IsLayable setup.now (length memory.old) (n / 16) (frame_of (cpu_in cpus lists.now n).current) (cpu_in cpus lists.now n).free }
    ensures count { length memory.new ≡ length memory.old }
    ensures memory { read memory.new ≡ lay_each (cpu_free_in setup.now cpus lists.now) 512 (read memory.old) }
{
    for number in 0..512 {
        if let Some(found) = lists_at(cpus, lists, number) {
            let frame = frame_of(found.current);
            lay_free(setup, (number / 16) as u8, frame, &found.free, memory);
        }
    }
}

/// Lays a partial list into the links of its slabs (`slab->next`).
fn lay_string(frames: &FrameList, links: &mut [u16])
    requires { All (λ frame. frame < length links.old) frames.now }
    ensures { links.new ≡ laid (string_row frames.now) links.old }
{
    let mut next = 0;
    for at in (0..frames.len()).rev() {
        if let Some(frame) = frames.get(at) {
            links[usize::from(frame)] = next;
            next = frame;
        }
    }
}

/// Lays the CPUs' partial lists into the links.
fn lay_links(cpus: u32, lists: &[CpuLists], links: &mut [u16])
    requires cpus { cpus ≤ 16 }
    requires inside { (n : ℕ) → All (λ frame. frame < length links.old) (cpu_in cpus lists.now n).partial }
    ensures { read links.new ≡ lay_each (string_in cpus lists.now) 512 (read links.old) }
{
    for number in 0..512 {
        if let Some(found) = lists_at(cpus, lists, number) {
            lay_string(&found.partial, links);
        }
    }
}

/// Lays all freelists into the memory, and all partial lists into the links.
pub fn lay_all(setup: &Setup, parts: &mut Parts, links: &mut Vec<u16>)
    requires consistent { IsConsistent (state_of parts.old) }
    requires setup { (step : ℕ) × (setup.now ≡ facts_of (state_of parts.old) step) }
    requires links { length links.old.items ≡ parts.old.frames }
    ensures state { state_of parts.new ≡ record (state_of parts.old) { memory = parts.new.memory } }
    ensures count { length parts.new.memory ≡ length parts.old.memory }
    ensures memory { read parts.new.memory ≡ lay_each (cpu_row (state_of parts.old)) 512 (lay_each (own_row (state_of parts.old)) parts.old.frames (read parts.old.memory)) }
    ensures links_count { length links.new.items ≡ length links.old.items }
    ensures links { read links.new.items ≡ lay_each (λ n. string_row (cpu_at (state_of parts.old) n).partial) 512 (read links.old.items) }
{
    lay_own(setup, &parts.slabs, &parts.frees, &mut parts.memory);
    lay_cpus(setup, parts.cpus, &parts.cpu_lists, &mut parts.memory);
    lay_links(parts.cpus, &parts.cpu_lists, links);
}
