//! `flush_cpu_slab`, `deactivate_slab`: what CPUs have of a cache goes to the node list.

ghost use Rattle.std.specs.Prelude.{◌≡◌, ℕ, ◌+◌, ◌<◌, ◌==◌, ◌∷◌, List, length, None, Some, MatchOption};
ghost use Rattle.slub_lists.specs.Alloc.{checked_of, lists_of, no_lists, node_of, slab_of, with_node};
ghost use Rattle.slub_lists.specs.Coherent.{IsCoherent, IsConsistent, times_current, times_partial};
ghost use Rattle.slub_lists.specs.Leaving.{LeavesSlabs};
ghost use Rattle.slub_lists.specs.Shrink.{flushed, flushed_below, put_away, put_where, taken_down};
ghost use Rattle.slub_lists.specs.Shrinking.{KeepsChecked};
ghost use Rattle.slub_lists.specs.Steps.{IsListable};

use crate::lists::Lists;

impl Lists {
    /// Flushes every CPU, from CPU 0 on (`flush_all`): no CPU has anything of the cache then.
    pub(crate) fn flush_cpus(&mut self, cache: u8, min_partial: u32)
        requires coherent { IsCoherent self.old }
        requires cache { cache < 32 }
        requires unchecked { checked_of self.old cache ≡ None }
        ensures flushed { self.new ≡ flushed_below self.old min_partial cache self.old.cpus }
        ensures bare { (cpu : ℕ) → cpu < self.new.cpus → lists_of self.new cache cpu ≡ no_lists }
        ensures slabs { LeavesSlabs self.old cache self.new }
        ensures rest { KeepsChecked self.old self.new }
        ensures coherent { IsCoherent self.new }
    {
        for cpu in 0..self.cpus {
            self.flush_cache(cache, cpu, min_partial);
        }
    }

    /// Puts the CPU's current slab away, and moves its partial list (`flush_cpu_slab`).
    pub(crate) fn flush_cache(&mut self, cache: u8, cpu: u32, min_partial: u32)
        requires coherent { IsCoherent self.old }
        requires cache { cache < 32 }
        requires cpu { cpu < self.old.cpus }
        requires unchecked { checked_of self.old cache ≡ None }
        ensures flushed { self.new ≡ flushed min_partial cache self.old cpu }
        ensures slabs { LeavesSlabs self.old cache self.new }
        ensures coherent { IsCoherent self.new }
    {
        self.put_away(cache, cpu, min_partial);
        self.move_all(cache, cpu, min_partial);
    }

    /// Puts the CPU's current slab away, if there is one (`deactivate_slab`).
    fn put_away(&mut self, cache: u8, cpu: u32, min_partial: u32)
        requires coherent { IsCoherent self.old }
        requires cache { cache < 32 }
        requires cpu { cpu < self.old.cpus }
        requires unchecked { checked_of self.old cache ≡ None }
        ensures away { self.new ≡ put_away self.old min_partial cache cpu }
        ensures coherent { IsCoherent self.new }
    {
        let at = self.place(cache, cpu);
        let Some(frame) = self.cpu_lists[at].current else {
            return;
        };
        let was_full = self.frees.is_empty_at(frame);
        self.take_down(cache, cpu, frame);
        self.put_where(cache, frame, min_partial, was_full);
    }

    /// The CPU freelist goes before the current slab's own freelist; the slab is unfrozen, and current no
    /// more.
    fn take_down(&mut self, cache: u8, cpu: u32, frame: u16)
        requires consistent { IsConsistent self.old }
        requires cache { cache < 32 }
        requires cpu { cpu < self.old.cpus }
        requires unchecked { checked_of self.old cache ≡ None }
        requires current { (lists_of self.old cache cpu).current ≡ Some frame }
        ensures taken { self.new ≡ taken_down self.old cache cpu frame }
        ensures consistent { IsConsistent self.new }
    {
        let at = self.place(cache, cpu);
        self.set_frozen(frame, false);
        let lists = &mut self.cpu_lists[at];
        self.frees.take_before(frame, &mut lists.free);
        lists.current = None;
    }

    /// Discards a slab that is spare; puts one with a free object at the head of the node list, or at its
    /// tail where its own freelist wasn't empty before.
    fn put_where(&mut self, cache: u8, frame: u16, min_partial: u32, was_full: bool)
        requires consistent { IsConsistent self.old }
        requires cache { cache < 32 }
        requires live { MatchOption (slab_of self.old frame) ⊥ (λ slab. slab.cache ≡ cache) }
        requires unlisted { times_current self.old frame + times_partial self.old frame ≡ 0 }
        ensures put { (own : List ℕ) → was_full ≡ (length own == 0) → self.new ≡ put_where self.old min_partial cache frame own }
        ensures consistent { IsConsistent self.new }
    {
        if self.is_spare(cache, frame, min_partial) {
            self.discard(frame);
        } else if !self.frees.is_empty_at(frame) {
            if was_full {
                self.push_node_head(cache, frame);
            } else {
                self.push_node(cache, frame);
            }
        }
    }

    /// A slab comes to the head of the node list.
    fn push_node_head(&mut self, cache: u8, frame: u16)
        requires consistent { IsConsistent self.old }
        requires cache { cache < 32 }
        requires listable { IsListable self.old cache frame }
        ensures pushed { self.new ≡ with_node self.old cache (frame ∷ node_of self.old cache) }
        ensures consistent { IsConsistent self.new }
    {
        self.nodes[cache as usize].push_head(frame);
    }
}
