//! `__kmem_cache_shrink`, `__kmem_cache_do_shrink`: shrinking caches.

ghost use Rattle.std.specs.Prelude.{◌≡◌, ℕ, ◌<◌, ◌==◌, false, length, None, IsSome, MatchOption, ◌≤◌, slice_index};
ghost use Rattle.slub_common.specs.Times.{times};
ghost use Rattle.slub_lists.specs.Alloc.{cache_of, checked_of, node_of};
ghost use Rattle.slub_lists.specs.Coherent.{IsCoherent, KeepsMachine};
ghost use Rattle.slub_lists.specs.Free.{inuse_of};
ghost use Rattle.slub_lists.specs.Leaving.{LeavesSlabs};
ghost use Rattle.slub_lists.specs.Shrink.{Promotes, Shrinks, ShrinksCache, ShrinksUnchecked, busy_of, has_slab, slabs_of, swept, swept_slab};
ghost use Rattle.slub_lists.specs.Shrinking.{KeepsChecked};

use crate::lists::{Lists, is_slab_of};
use slub_common::no_such_cache::NoSuchCache;
use slub_object_layout::name::Name;

impl Lists {
    /// Shrinks a cache: takes what its CPUs have to the node list, gives the pages of its unused slabs
    /// back and puts the others in order. The answer is whether the cache still has a slab.
    ///
    /// The frames of the slabs that went are free, and no other frame came free. Where no object of the
    /// cache is held, on the board or set aside, no slab is left.
    ///
    /// It is asked between rounds.
    pub fn shrink(&mut self, name: &Name) -> Result<bool, NoSuchCache>
        requires coherent { IsCoherent self.old }
        ensures shrinks { Shrinks self.old name.now result self.new }
        ensures board { self.new.board ≡ self.old.board }
        ensures kept { KeepsMachine self.old self.new }
        ensures coherent { IsCoherent self.new }
    {
        let Some(cache) = self.table.find(name) else {
            return Err(NoSuchCache);
        };
        self.shrink_cache(cache);
        Ok(self.has_slab(cache))
    }

    /// Shrinks a live cache, checked or not.
    pub(crate) fn shrink_cache(&mut self, cache: u8)
        requires coherent { IsCoherent self.old }
        requires live { IsSome (cache_of self.old cache) }
        ensures shrinks { ShrinksCache self.old cache self.new }
        ensures coherent { IsCoherent self.new }
    {
        if self.checked[cache as usize].is_some() {
            self.shrink_checked(cache);
        } else {
            let min_partial = self.table.layout(cache).min_partial;
            self.shrink_unchecked(cache, min_partial);
        }
    }

    /// Whether a cache has a slab.
    pub(crate) fn has_slab(&self, cache: u8) -> bool
        requires frames { length self.now.slabs ≤ 4096 }
        ensures { result ≡ has_slab self.now cache }
    {
        self.count_slabs(cache) > 0
    }

    /// How many slabs a cache has.
    pub(crate) fn count_slabs(&self, cache: u8) -> u32
        requires frames { length self.now.slabs ≤ 4096 }
        ensures { result ≡ slabs_of self.now cache }
    {
        let slabs = self.slabs.iter();
        slabs.filter(|slab| is_slab_of(slab, cache)).count() as u32
    }

    /// Flushes the CPUs, sweeps the node list and puts it in order.
    pub(crate) fn shrink_unchecked(&mut self, cache: u8, min_partial: u32)
        requires coherent { IsCoherent self.old }
        requires cache { cache < 32 }
        requires unchecked { checked_of self.old cache ≡ None }
        ensures shrinks { ShrinksUnchecked self.old min_partial cache self.new }
        ensures emptied { busy_of self.old cache ≡ 0 → has_slab self.new cache ≡ false }
        ensures slabs { LeavesSlabs self.old cache self.new }
        ensures rest { KeepsChecked self.old self.new }
        ensures coherent { IsCoherent self.new }
    {
        self.flush_cpus(cache, min_partial);
        self.sweep(cache);
        self.promote(cache);
    }

    /// Discards the slabs of the node list of which nothing is in use.
    fn sweep(&mut self, cache: u8)
        requires coherent { IsCoherent self.old }
        requires cache { cache < 32 }
        ensures swept { self.new ≡ swept self.old cache }
        ensures used { (frame : ℕ) → 0 < times frame (node_of self.new cache) → 0 < inuse_of self.new frame }
        ensures lists { self.new.cpu_lists ≡ self.old.cpu_lists }
        ensures slabs { LeavesSlabs self.old cache self.new }
        ensures rest { KeepsChecked self.old self.new }
        ensures coherent { IsCoherent self.new }
    {
        let mut place = 0;
        while let Some(frame) = self.node_at(cache, place) {
            if !self.sweep_slab(cache, frame) {
                place += 1;
            }
        }
    }

    /// The slab at a place of the node list, if there is one.
    fn node_at(&self, cache: u8, place: usize) -> Option<u16>
        requires { cache < length self.now.nodes }
        ensures slab { MatchOption result (length (node_of self.now cache) ≤ place) (λ frame. (place < length (node_of self.now cache)) × (slice_index (node_of self.now cache) place ≡ frame)) }
        ensures room { length (node_of self.now cache) ≤ 4095 }
    {
        let frames = self.nodes[cache as usize].frames();
        frames.get(place).copied()
    }

    /// Discards a slab of the node list where nothing of it is in use, and says whether it did.
    fn sweep_slab(&mut self, cache: u8, frame: u16) -> bool
        requires coherent { IsCoherent self.old }
        requires cache { cache < 32 }
        requires there { 0 < times frame (node_of self.old cache) }
        ensures gone { result ≡ (inuse_of self.old frame == 0) }
        ensures swept { self.new ≡ swept_slab cache self.old frame }
        ensures coherent { IsCoherent self.new }
    {
        if !self.is_unused(frame) {
            return false;
        }
        self.remove_from_node(cache, frame);
        self.discard(frame);
        true
    }

    /// Puts the node list in order.
    fn promote(&mut self, cache: u8)
        requires coherent { IsCoherent self.old }
        requires cache { cache < 32 }
        ensures promotes { Promotes self.old cache self.new }
        ensures coherent { IsCoherent self.new }
    {
        self.nodes[cache as usize].promote(&self.frees);
    }
}
