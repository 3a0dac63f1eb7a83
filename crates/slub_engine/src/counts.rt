//! Counting what slabinfo says of a cache.

ghost use Rattle.std.specs.Prelude.{◌≡◌, ◌≤◌, [], None, Some, MatchOption, length, sum_by, count_by, IfOk, IfSome, IsSome, slice_index_or};
ghost use Rattle.std.specs.List.{zip};
ghost use Rattle.slub_red_zone.specs.State.{slab_of};
ghost use Rattle.slub_lists.specs.Alloc.{cache_of, checked_of};
ghost use Rattle.slub_lists.specs.Coherent.{IsCoherent};
ghost use Rattle.slub_lists.specs.Shrink.{is_slab_of};
ghost use Rattle.slub_slabinfo_text.specs.Counts.{aside_of, counts_of, free_in, free_of, is_frozen_of, listed_free, loose_of, node_free_of, objects_in, row_of, rows_of};

use slub_common::no_memory::NoMemory;
use slub_list_machine::lists::{Lists, is_slab_of};
use slub_list_machine::own_lists::OwnLists;
use slub_lists::lists::{CpuLists, Slab};
use slub_object_layout::layout::Layout;
use slub_red_zone::checked::CheckedSlabs;
use slub_slabinfo_text::counts::{Counts, InfoRow};
use std::alloc::Global;

/// What slabinfo says of a live cache (`get_slabinfo`).
///
/// The cost is at most four passes over the slabs, and one over the slabs on the node list and the
/// cache's CPUs: the board isn't walked. No memory is taken.
pub fn cache_counts(lists: &Lists, cache: u8) -> Counts
    requires coherent { IsCoherent lists.now }
    requires live { IsSome (cache_of lists.now cache) }
    ensures { IfSome (cache_of lists.now cache) (λ live.
        result ≡ counts_of lists.now cache live.layout) }
{
    counts_with(lists, cache, lists.caches().layout(cache))
}

/// The same for a live cache with this layout.
fn counts_with(lists: &Lists, cache: u8, layout: &Layout) -> Counts
    requires coherent { IsCoherent lists.now }
    requires live { IsSome (cache_of lists.now cache) }
    requires layout { IfSome (cache_of lists.now cache) (λ live. layout.now ≡ live.layout) }
    ensures { result ≡ counts_of lists.now cache layout.now }
{
    let num_objs = num_objs(lists.slabs(), cache);
    let node_free = node_free(lists, cache);
    Counts {
        active_objs: num_objs.saturating_sub(node_free),
        num_objs,
        objsize: layout.size,
        objperslab: layout.objects,
        pagesperslab: 1 << layout.order,
        num_slabs: num_slabs(lists.slabs(), cache),
        live: lists.live()[cache as usize],
        free: free(lists, cache),
        aside: aside(lists, cache),
        frozen: frozen(lists.slabs(), cache),
    }
}

/// The slabs of a cache, if it is checked.
fn checked(lists: &Lists, cache: u8) -> Option<&CheckedSlabs>
    ensures { MatchOption result (checked_of lists.now cache ≡ None)
        (λ slabs. checked_of lists.now cache ≡ Some slabs.now) }
{
    lists.checked().get(cache as usize)?.as_ref()
}

/// The objects of all slabs of a cache.
fn num_objs(slabs: &[Option<Slab>], cache: u8) -> u64
    requires { length slabs.now ≤ 4096 }
    ensures { result ≡ sum_by (objects_in cache) slabs.now }
{
    let mut count = 0;
    for slab in slabs {
        count += match slab {
            Some(slab) if slab.cache == cache => u64::from(slab.objects),
            _ => 0,
        };
    }
    count
}

/// The free objects of the slabs on the node list of a cache, which of a checked one are its listed
/// slabs.
fn node_free(lists: &Lists, cache: u8) -> u64
    requires coherent { IsCoherent lists.now }
    requires live { IsSome (cache_of lists.now cache) }
    ensures { result ≡ node_free_of lists.now cache }
{
    match checked(lists, cache) {
        Some(slabs) => listed_free(slabs),
        None => own_free_of(lists.nodes()[cache as usize].frames(), lists.frees()),
    }
}

/// The free objects of the listed slabs of a checked cache.
fn listed_free(slabs: &CheckedSlabs) -> u64
    ensures { result ≡ listed_free slabs.now }
{
    let mut count = 0;
    for frame in slabs.listed() {
        count += checked_free(slabs, *frame);
    }
    count
}

/// The free objects of a slab of a checked cache.
fn checked_free(slabs: &CheckedSlabs, frame: u16) -> u64
    ensures value { result ≡ length (slab_of slabs.now frame).free }
    ensures room { result ≤ 512 }
{
    if slabs.has(frame) {
        slabs.free_of(frame).len() as u64
    } else {
        0
    }
}

/// The free objects on the own freelists of these slabs.
fn own_free_of(frames: &[u16], frees: &OwnLists) -> u64
    requires { length frames.now ≤ 4095 }
    ensures { result ≡ sum_by (λ frame. length (slice_index_or frees.now frame [])) frames.now }
{
    let mut count = 0;
    for frame in frames {
        count += own_free(frees, *frame);
    }
    count
}

/// The free objects on a slab's own freelist.
fn own_free(frees: &OwnLists, frame: u16) -> u64
    ensures value { result ≡ length (slice_index_or frees.now frame []) }
    ensures room { result ≤ 512 }
{
    frees.len_of(frame) as u64
}

/// The free objects of a cache, wherever they stand.
fn free(lists: &Lists, cache: u8) -> u64
    requires coherent { IsCoherent lists.now }
    requires live { IsSome (cache_of lists.now cache) }
    ensures { result ≡ free_of lists.now cache }
{
    match checked(lists, cache) {
        Some(slabs) => u64::from(slabs.free()),
        None => loose_free(lists, cache),
    }
}

/// The objects of a cache that are set aside: a checked one alone has any.
fn aside(lists: &Lists, cache: u8) -> u64
    ensures { result ≡ aside_of lists.now cache }
{
    checked(lists, cache).map_or(0, |slabs| u64::from(slabs.aside()))
}

/// The free objects on the slabs' own freelists and on the CPUs' freelists.
fn loose_free(lists: &Lists, cache: u8) -> u64
    requires coherent { IsCoherent lists.now }
    requires live { IsSome (cache_of lists.now cache) }
    ensures { result ≡ loose_of lists.now cache }
{
    let cpus = lists.cpus() as usize;
    let first = cache as usize * cpus;
    slab_free(lists.slabs(), lists.frees(), cache)
        + cpu_free(&lists.cpu_lists()[first..first + cpus])
}

/// The free objects on the own freelists of a cache's slabs.
fn slab_free(slabs: &[Option<Slab>], frees: &OwnLists, cache: u8) -> u64
    requires slabs { length slabs.now ≤ 4096 }
    requires frees { length frees.now ≡ length slabs.now }
    ensures value { result ≡ sum_by (free_in cache) (zip slabs.now frees.now) }
    ensures bound { result ≤ 2097152 }
{
    let mut count = 0;
    for (frame, slab) in slabs.iter().enumerate() {
        if is_slab_of(slab, cache) {
            count += own_free(frees, frame as u16);
        }
    }
    count
}

/// The objects on the freelists of these CPUs.
fn cpu_free(cpus: &[CpuLists]) -> u64
    requires { length cpus.now ≤ 16 }
    ensures value { result ≡ sum_by (λ lists. length lists.free) cpus.now }
    ensures bound { result ≤ 8192 }
{
    let mut count = 0;
    for lists in cpus {
        count += lists.free.len() as u64;
    }
    count
}

/// How many slabs a cache has.
fn num_slabs(slabs: &[Option<Slab>], cache: u8) -> u64
    ensures { result ≡ count_by (is_slab_of cache) slabs.now }
{
    slabs.iter().filter(|slab| is_slab_of(slab, cache)).count() as u64
}

/// How many slabs of a cache are frozen.
fn frozen(slabs: &[Option<Slab>], cache: u8) -> u64
    ensures { result ≡ count_by (is_frozen_of cache) slabs.now }
{
    slabs
        .iter()
        .filter(|slab| is_frozen_of(slab, cache))
        .count() as u64
}

fn is_frozen_of(slab: &Option<Slab>, cache: u8) -> bool
    ensures { result ≡ is_frozen_of cache slab.now }
{
    match slab {
        Some(slab) => slab.cache == cache && slab.frozen,
        None => false,
    }
}

/// The rows of slabinfo: one for each live cache, newest first.
pub fn info_rows(alloc: Global, lists: &Lists) -> Result<Vec<InfoRow>, NoMemory>
    requires coherent { IsCoherent lists.now }
    ensures { IfOk result (λ rows. rows.items ≡ rows_of lists.now) }
{
    let mut rows = Vec::new(alloc);
    for cache in lists.caches().in_order() {
        rows.push(info_row(lists, *cache))?;
    }
    rows.reverse();
    Ok(rows)
}

/// The row of a live cache.
fn info_row(lists: &Lists, cache: u8) -> InfoRow
    requires coherent { IsCoherent lists.now }
    requires live { IsSome (cache_of lists.now cache) }
    ensures { Some result ≡ row_of lists.now cache }
{
    InfoRow {
        title: *lists.caches().title(cache),
        counts: cache_counts(lists, cache),
    }
}
