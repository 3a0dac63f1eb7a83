//! `slab_alloc_node`, `___slab_alloc`, `new_slab`: allocation.

ghost use Rattle.std.specs.Prelude.{◌≡◌, ◌<◌, ◌≤◌, length, None, IsSome, IfSome, slice_index_or};
ghost use Rattle.std.specs.Bool.{OnTrue};
ghost use Rattle.slub_page_pool.specs.FreeFrames.{IsPool};
ghost use Rattle.slub_lists.specs.Alloc.{Allocates, AllocatesNew, FindsRun, Gives, MakesSlab, cache_of, checked_of, lists_of, HasLayout, IsLive};
ghost use Rattle.slub_lists.specs.Named.{AllocatesFrom, AllocatesNamed};
ghost use Rattle.slub_lists.specs.Coherent.{IsCoherent, IsConsistent, KeepsOthers};
ghost use Rattle.slub_lists.specs.Steps.{IsRelisted, KeepsFound};

use crate::lists::Lists;
use slub_lists::lists::{Held, Run, Slab};
use slub_object_layout::layout::{Layout, address};
use slub_page_pool::Pool;
use slub_trace::reply::Reply;

/// A run for a new slab: of the layout's order, or where none is there of its least order
/// (`allocate_slab`). Where none is there either, the want of the least order is noted.
pub(crate) fn find_run(pool: &mut Pool, layout: &Layout) -> Option<Run>
    requires pool { IsPool pool.old }
    requires layout { IsLive layout.now }
    ensures found { FindsRun pool.old layout.now result pool.new }
    ensures pool { IsPool pool.new }
{
    if layout.min_order == layout.order {
        let frame = pool.take_or_note(layout.order)?;
        return Some(Run {
            frame: frame as u16,
            order: layout.order,
            objects: layout.objects,
        });
    }
    if let Some(frame) = pool.take(layout.order) {
        return Some(Run {
            frame: frame as u16,
            order: layout.order,
            objects: layout.objects,
        });
    }
    let frame = pool.take_or_note(layout.min_order)?;
    Some(Run {
        frame: frame as u16,
        order: layout.min_order,
        objects: layout.min_objects_slab,
    })
}

impl Lists {
    /// Allocates an object of the cache that a name names, on a CPU, for a worker, under a number
    /// (`___slab_alloc`).
    ///
    /// Object numbers begin at 1, and the number is one that no object on the board has.
    pub fn alloc_named(&mut self, place: u32, cpu: u32, worker: u8, object: u32) -> Reply
        requires coherent { IsCoherent self.old }
        requires place { place < length self.old.table.kept }
        requires cpu { cpu < self.old.cpus }
        requires object { (1 ≤ object) × (object < length self.old.board) }
        requires unused { slice_index_or self.old.board object None ≡ None }
        ensures allocates { AllocatesNamed self.old place cpu worker object result self.new }
        ensures others { KeepsOthers self.old object self.new }
        ensures coherent { IsCoherent self.new }
    {
        self.alloc_by_name(place, cpu, worker, object)
    }

    /// Allocates an object of the cache that a name names.
    fn alloc_by_name(&mut self, place: u32, cpu: u32, worker: u8, object: u32) -> Reply
        requires consistent { IsConsistent self.old }
        requires place { place < length self.old.table.kept }
        requires cpu { cpu < self.old.cpus }
        requires object { (1 ≤ object) × (object < length self.old.board) }
        requires unused { slice_index_or self.old.board object None ≡ None }
        ensures allocates { AllocatesNamed self.old place cpu worker object result self.new }
        ensures found { KeepsFound self.old self.new }
        ensures consistent { IsConsistent self.new }
    {
        match self.table.at(place) {
            Some(cache) => self.alloc_from(cache, cpu, worker, object),
            None => Reply::NoSuchCache,
        }
    }

    /// Allocates an object of a live cache, checked or not.
    fn alloc_from(&mut self, cache: u8, cpu: u32, worker: u8, object: u32) -> Reply
        requires consistent { IsConsistent self.old }
        requires live { IsSome (cache_of self.old cache) }
        requires cpu { cpu < self.old.cpus }
        requires object { (1 ≤ object) × (object < length self.old.board) }
        requires unused { slice_index_or self.old.board object None ≡ None }
        ensures allocates { IfSome (cache_of self.old cache) (λ live. AllocatesFrom self.old live.layout cache cpu worker object result self.new) }
        ensures found { KeepsFound self.old self.new }
        ensures consistent { IsConsistent self.new }
    {
        let layout = self.layout(cache);
        if self.checked[cache as usize].is_some() {
            self.alloc_checked(cache, worker, object, &layout)
        } else {
            self.alloc(cache, cpu, worker, object, &layout)
        }
    }

    /// Allocates an object of a live cache that is not checked.
    fn alloc(&mut self, cache: u8, cpu: u32, worker: u8, object: u32, layout: &Layout) -> Reply
        requires consistent { IsConsistent self.old }
        requires live { HasLayout self.old cache layout.now }
        requires unchecked { checked_of self.old cache ≡ None }
        requires cpu { cpu < self.old.cpus }
        requires object { (1 ≤ object) × (object < length self.old.board) }
        requires unused { slice_index_or self.old.board object None ≡ None }
        ensures allocates { Allocates self.old layout.now cache cpu worker object result self.new }
        ensures consistent { IsConsistent self.new }
    {
        let batch = layout.cpu_partial_slabs as usize / 2 + 1;
        if self.stock(cache, cpu, batch) {
            Reply::Given(self.give(cache, cpu, worker, object, layout))
        } else {
            self.alloc_new(cache, cpu, worker, object, layout)
        }
    }

    /// Allocates the first object of a new slab.
    fn alloc_new(&mut self, cache: u8, cpu: u32, worker: u8, object: u32, layout: &Layout) -> Reply
        requires consistent { IsConsistent self.old }
        requires live { HasLayout self.old cache layout.now }
        requires unchecked { checked_of self.old cache ≡ None }
        requires cpu { cpu < self.old.cpus }
        requires current { (lists_of self.old cache cpu).current ≡ None }
        requires object { (1 ≤ object) × (object < length self.old.board) }
        requires unused { slice_index_or self.old.board object None ≡ None }
        ensures allocates { AllocatesNew self.old layout.now cache cpu worker object result self.new }
        ensures consistent { IsConsistent self.new }
    {
        if self.new_slab(cache, cpu, layout) {
            Reply::Given(self.give(cache, cpu, worker, object, layout))
        } else {
            Reply::NoFrames
        }
    }

    /// The layout of a live cache.
    pub(crate) fn layout(&self, cache: u8) -> Layout
        requires live { IsSome (cache_of self.now cache) }
        ensures { HasLayout self.now cache result }
    {
        *self.table.layout(cache)
    }

    /// Makes a slab that is frozen and current on a CPU, whose objects in rising order are the CPU
    /// freelist (`new_slab`). False where no run of frames is there.
    fn new_slab(&mut self, cache: u8, cpu: u32, layout: &Layout) -> bool
        requires consistent { IsConsistent self.old }
        requires live { HasLayout self.old cache layout.now }
        requires unchecked { checked_of self.old cache ≡ None }
        requires cpu { cpu < self.old.cpus }
        requires current { (lists_of self.old cache cpu).current ≡ None }
        ensures made { MakesSlab self.old layout.now cache cpu result self.new }
        ensures stocked { OnTrue result (0 < length (lists_of self.new cache cpu).free) }
        ensures relisted { IsRelisted self.old self.new }
        ensures consistent { IsConsistent self.new }
    {
        let at = self.place(cache, cpu);
        let Some(run) = find_run(&mut self.pool, layout) else {
            return false;
        };
        self.slabs[run.frame as usize] = Some(Slab {
            cache,
            order: run.order,
            objects: run.objects,
            frozen: true,
        });
        let lists = &mut self.cpu_lists[at];
        lists.current = Some(run.frame);
        lists.free.fill_rising(run.objects as u16);
        true
    }

    /// Gives the first object of the CPU freelist, and says its address.
    fn give(&mut self, cache: u8, cpu: u32, worker: u8, object: u32, layout: &Layout) -> u32
        requires consistent { IsConsistent self.old }
        requires live { HasLayout self.old cache layout.now }
        requires unchecked { checked_of self.old cache ≡ None }
        requires cpu { cpu < self.old.cpus }
        requires free { 0 < length (lists_of self.old cache cpu).free }
        requires object { (1 ≤ object) × (object < length self.old.board) }
        requires unused { slice_index_or self.old.board object None ≡ None }
        ensures gives { Gives self.old layout.now cache cpu worker object (Reply.Given result) self.new }
        ensures consistent { IsConsistent self.new }
    {
        let at = self.place(cache, cpu);
        let lists = &mut self.cpu_lists[at];
        let (Some(frame), Some(index)) = (lists.current, lists.free.pop()) else {
            unreachable!()
        };
        self.board[object as usize] = Some(Held {
            frame,
            index,
            cache,
            worker: Some(worker),
        });
        self.live[cache as usize] += 1;
        address(u32::from(frame), u32::from(index), layout)
    }
}
