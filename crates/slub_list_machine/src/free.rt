//! `slab_free`, `do_slab_free`, `__slab_free`: freeing.

ghost use Rattle.std.specs.Prelude.{◌≡◌, ◌<◌, length, None, Some, slice_index_or};
ghost use Rattle.slub_lists.specs.Alloc.{checked_of, lists_of, HasLayout};
ghost use Rattle.slub_lists.specs.Coherent.{IsCoherent, IsConsistent, KeepsOthers};
ghost use Rattle.slub_lists.specs.Free.{FreesUnchecked, freed_here, freed_there, is_current, is_freeable, is_frozen, with_freed, with_gone, with_taken};
ghost use Rattle.slub_lists.specs.Freeing.{Frees, FreesHeld};
ghost use Rattle.slub_lists.specs.Steps.{KeepsFound};

use crate::lists::Lists;
use slub_lists::lists::Held;
use slub_object_layout::layout::{Layout, address};
use slub_trace::reply::Reply;

impl Lists {
    /// Frees the object under a number, on a CPU, for a worker (`__slab_free`).
    ///
    /// The worker holds the object, or it is on the board between rounds, when anyone may free it.
    pub fn free(&mut self, cpu: u32, worker: u8, object: u32) -> Reply
        requires coherent { IsCoherent self.old }
        requires cpu { cpu < self.old.cpus }
        requires object { object < length self.old.board }
        ensures frees { Frees self.old cpu worker object result self.new }
        ensures others { KeepsOthers self.old object self.new }
        ensures coherent { IsCoherent self.new }
    {
        self.free_number(cpu, worker, object)
    }

    /// Frees what a number names.
    fn free_number(&mut self, cpu: u32, worker: u8, object: u32) -> Reply
        requires consistent { IsConsistent self.old }
        requires cpu { cpu < self.old.cpus }
        requires object { object < length self.old.board }
        ensures frees { Frees self.old cpu worker object result self.new }
        ensures found { KeepsFound self.old self.new }
        ensures consistent { IsConsistent self.new }
    {
        let Some(held) = self.board[object as usize] else {
            return Reply::NotHeld;
        };
        if !is_freeable(worker, held.worker) {
            return Reply::NotHeld;
        }
        self.free_held(cpu, worker, object, &held)
    }

    /// Frees an object that was given, of a cache that is checked or not.
    fn free_held(&mut self, cpu: u32, worker: u8, object: u32, held: &Held) -> Reply
        requires consistent { IsConsistent self.old }
        requires cpu { cpu < self.old.cpus }
        requires held { slice_index_or self.old.board object None ≡ Some held.now }
        ensures frees { FreesHeld self.old cpu worker object held.now result self.new }
        ensures found { KeepsFound self.old self.new }
        ensures consistent { IsConsistent self.new }
    {
        let layout = self.layout(held.cache);
        if self.checked[held.cache as usize].is_some() {
            self.free_checked(worker, object, held, &layout)
        } else {
            self.free_unchecked(cpu, worker, object, held, &layout)
        }
    }

    /// Frees an object of a cache that is not checked.
    fn free_unchecked(
        &mut self,
        cpu: u32,
        worker: u8,
        object: u32,
        held: &Held,
        layout: &Layout,
    ) -> Reply
        requires consistent { IsConsistent self.old }
        requires cpu { cpu < self.old.cpus }
        requires held { slice_index_or self.old.board object None ≡ Some held.now }
        requires live { HasLayout self.old held.now.cache layout.now }
        requires unchecked { checked_of self.old held.now.cache ≡ None }
        ensures frees { FreesUnchecked self.old layout.now cpu worker object held.now result self.new }
        ensures consistent { IsConsistent self.new }
    {
        let at = self.place(held.cache, cpu);
        if is_current(held.frame, self.cpu_lists[at].current) {
            self.free_here(cpu, object, held);
        } else {
            self.free_there(cpu, object, held, layout);
        }
        self.note_gone(worker, object, held);
        Reply::Freed(address(u32::from(held.frame), u32::from(held.index), layout))
    }

    /// Notes who freed the number in this round.
    pub(crate) fn note_gone(&mut self, worker: u8, object: u32, held: &Held)
        requires consistent { IsConsistent self.old }
        requires object { object < length self.old.board }
        ensures noted { self.new ≡ with_gone self.old object worker held.now }
        ensures consistent { IsConsistent self.new }
    {
        self.gone[object as usize] = Some(Held {
            worker: Some(worker),
            ..*held
        });
    }

    /// Frees an object of the slab that is current on the CPU (`do_slab_free`, the fast path).
    fn free_here(&mut self, cpu: u32, object: u32, held: &Held)
        requires consistent { IsConsistent self.old }
        requires cpu { cpu < self.old.cpus }
        requires held { slice_index_or self.old.board object None ≡ Some held.now }
        requires unchecked { checked_of self.old held.now.cache ≡ None }
        requires current { (lists_of self.old held.now.cache cpu).current ≡ Some held.now.frame }
        ensures freed { self.new ≡ freed_here (with_taken self.old object held.now.cache) held.now.cache cpu held.now.index }
        ensures consistent { IsConsistent self.new }
    {
        let at = self.place(held.cache, cpu);
        self.take_off(object, held.cache);
        self.cpu_lists[at].free.push(held.index);
    }

    /// Frees an object of another slab (`__slab_free`).
    fn free_there(&mut self, cpu: u32, object: u32, held: &Held, layout: &Layout)
        requires consistent { IsConsistent self.old }
        requires cpu { cpu < self.old.cpus }
        requires held { slice_index_or self.old.board object None ≡ Some held.now }
        requires unchecked { checked_of self.old held.now.cache ≡ None }
        ensures freed { self.new ≡ freed_there (with_taken self.old object held.now.cache) layout.now held.now.cache cpu held.now.frame held.now.index }
        ensures consistent { IsConsistent self.new }
    {
        let was_full = self.frees.is_empty_at(held.frame);
        self.free_own(object, held);
        if self.is_frozen(held.frame) {
            return;
        }
        if was_full {
            self.put_partial(held.cache, cpu, held.frame, layout);
        } else {
            self.drop_spare(held.cache, held.frame, layout.min_partial);
        }
    }

    /// Frees an object to its slab's own freelist.
    fn free_own(&mut self, object: u32, held: &Held)
        requires consistent { IsConsistent self.old }
        requires held { slice_index_or self.old.board object None ≡ Some held.now }
        requires unchecked { checked_of self.old held.now.cache ≡ None }
        ensures freed { self.new ≡ with_freed (with_taken self.old object held.now.cache) held.now.frame held.now.index }
        ensures consistent { IsConsistent self.new }
    {
        self.take_off(object, held.cache);
        self.frees.push(held.frame, held.index);
    }

    /// Takes a number off the board.
    pub(crate) fn take_off(&mut self, object: u32, cache: u8)
        requires object { object < length self.old.board }
        requires cache { cache < length self.old.live }
        requires counted { 0 < slice_index_or self.old.live cache 0 }
        ensures { self.new ≡ with_taken self.old object cache }
    {
        self.board[object as usize] = None;
        self.live[cache as usize] -= 1;
    }

    fn is_frozen(&self, frame: u16) -> bool
        requires { frame < length self.now.slabs }
        ensures { result ≡ is_frozen self.now frame }
    {
        match &self.slabs[frame as usize] {
            Some(slab) => slab.frozen,
            None => false,
        }
    }
}

/// The slab is the one that a CPU allocates from.
fn is_current(frame: u16, current: Option<u16>) -> bool
    ensures { result ≡ is_current frame current }
{
    match current {
        Some(current) => current == frame,
        None => false,
    }
}

/// The worker may free what this worker holds, or no worker.
fn is_freeable(worker: u8, holder: Option<u8>) -> bool
    ensures { result ≡ is_freeable worker holder }
{
    match holder {
        Some(holder) => holder == worker,
        None => true,
    }
}
