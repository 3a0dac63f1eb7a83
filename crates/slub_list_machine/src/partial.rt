//! `put_cpu_partial`, `__unfreeze_partials`: slabs that come to a partial list, and a set that is
//! moved from a CPU's to the node's.

ghost use Rattle.std.specs.Prelude.{◌≡◌, ◌+◌, ◌<◌, ◌++◌, [], ◌∷◌, nat_lt, MatchOption};
ghost use Rattle.slub_common.specs.Times.{times};
ghost use Rattle.slub_lists.specs.Alloc.{lists_of, node_of, slab_of, with_node};
ghost use Rattle.slub_lists.specs.Coherent.{IsConsistent, times_current};
ghost use Rattle.slub_lists.specs.Free.{drained, moved, moved_all, put_partial, without_spare, with_partial, without_slab};
ghost use Rattle.slub_lists.specs.Leaving.{LeavesSlabs};
ghost use Rattle.slub_lists.specs.Steps.{IsListable, MovesFront};

use crate::lists::Lists;
use slub_object_layout::layout::Layout;

impl Lists {
    /// Puts a slab that was full at the front of the CPU's partial list; where that list has its
    /// `cpu_partial_slabs` slabs, or more, those are moved to the node list first
    /// (`put_cpu_partial`).
    pub(crate) fn put_partial(&mut self, cache: u8, cpu: u32, frame: u16, layout: &Layout)
        requires consistent { IsConsistent self.old }
        requires cache { cache < 32 }
        requires cpu { cpu < self.old.cpus }
        requires listable { IsListable self.old cache frame }
        ensures put { self.new ≡ put_partial self.old layout.now cache cpu frame }
        ensures consistent { IsConsistent self.new }
    {
        self.drain(cache, cpu, layout);
        self.push_partial(cache, cpu, frame);
    }

    /// Moves the CPU's partial list where it is full.
    fn drain(&mut self, cache: u8, cpu: u32, layout: &Layout)
        requires consistent { IsConsistent self.old }
        requires cache { cache < 32 }
        requires cpu { cpu < self.old.cpus }
        ensures drained { self.new ≡ drained self.old layout.now cache cpu }
        ensures consistent { IsConsistent self.new }
    {
        let at = self.place(cache, cpu);
        if self.cpu_lists[at].partial.len() >= layout.cpu_partial_slabs as usize {
            self.move_all(cache, cpu, layout.min_partial);
        }
    }

    /// Moves the CPU's partial list as a set, from its front on (`__unfreeze_partials`).
    pub(crate) fn move_all(&mut self, cache: u8, cpu: u32, min_partial: u32)
        requires consistent { IsConsistent self.old }
        requires cache { cache < 32 }
        requires cpu { cpu < self.old.cpus }
        ensures moved { self.new ≡ moved_all (with_partial self.old cache cpu []) min_partial cache (lists_of self.old cache cpu).partial }
        ensures slabs { LeavesSlabs self.old cache self.new }
        ensures consistent { IsConsistent self.new }
    {
        while self.move_front(cache, cpu, min_partial) {}
    }

    /// Moves the front of the CPU's partial list. False where that list is empty.
    fn move_front(&mut self, cache: u8, cpu: u32, min_partial: u32) -> bool
        requires consistent { IsConsistent self.old }
        requires cache { cache < 32 }
        requires cpu { cpu < self.old.cpus }
        ensures moved { MovesFront self.old min_partial cache cpu result self.new }
        ensures consistent { IsConsistent self.new }
    {
        let at = self.place(cache, cpu);
        let Some(frame) = self.cpu_lists[at].partial.pop() else {
            return false;
        };
        self.move_one(cache, frame, min_partial);
        true
    }

    /// Discards a slab that nothing of is in use, where the node list has enough slabs; puts any
    /// other at the tail of the node list.
    fn move_one(&mut self, cache: u8, frame: u16, min_partial: u32)
        requires consistent { IsConsistent self.old }
        requires cache { cache < 32 }
        requires listable { IsListable self.old cache frame }
        ensures moved { self.new ≡ moved min_partial cache self.old frame }
        ensures consistent { IsConsistent self.new }
    {
        if self.is_spare(cache, frame, min_partial) {
            self.discard(frame);
        } else {
            self.push_node(cache, frame);
        }
    }

    /// Takes a slab off the node list and discards it, where it stands there, nothing of it is in
    /// use and the list has enough slabs.
    pub(crate) fn drop_spare(&mut self, cache: u8, frame: u16, min_partial: u32)
        requires consistent { IsConsistent self.old }
        requires cache { cache < 32 }
        requires live { MatchOption (slab_of self.old frame) ⊥ (λ slab. slab.cache ≡ cache) }
        requires current { times_current self.old frame ≡ 0 }
        ensures without_spare { self.new ≡ without_spare self.old min_partial cache frame }
        ensures consistent { IsConsistent self.new }
    {
        if self.is_spare(cache, frame, min_partial) && self.remove_from_node(cache, frame) {
            self.discard(frame);
        }
    }

    pub(crate) fn remove_from_node(&mut self, cache: u8, frame: u16) -> bool
        requires consistent { IsConsistent self.old }
        requires cache { cache < 32 }
        ensures found { result ≡ nat_lt 0 (times frame (node_of self.old cache)) }
        ensures removed { self.new ≡ without_slab self.old cache frame }
        ensures consistent { IsConsistent self.new }
    {
        self.nodes[cache as usize].remove(frame)
    }

    /// A slab comes to the front of the CPU's partial list.
    fn push_partial(&mut self, cache: u8, cpu: u32, frame: u16)
        requires consistent { IsConsistent self.old }
        requires cache { cache < 32 }
        requires cpu { cpu < self.old.cpus }
        requires listable { IsListable self.old cache frame }
        ensures pushed { self.new ≡ with_partial self.old cache cpu (frame ∷ (lists_of self.old cache cpu).partial) }
        ensures consistent { IsConsistent self.new }
    {
        let at = self.place(cache, cpu);
        self.cpu_lists[at].partial.push(frame);
    }

    /// A slab comes to the tail of the node list.
    pub(crate) fn push_node(&mut self, cache: u8, frame: u16)
        requires consistent { IsConsistent self.old }
        requires cache { cache < 32 }
        requires listable { IsListable self.old cache frame }
        ensures pushed { self.new ≡ with_node self.old cache (node_of self.old cache ++ frame ∷ []) }
        ensures consistent { IsConsistent self.new }
    {
        self.nodes[cache as usize].push_tail(frame);
    }
}
