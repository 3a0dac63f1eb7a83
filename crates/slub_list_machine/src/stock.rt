//! `___slab_alloc`, `get_freelist`, `get_partial_node`: a slab with an object to give, the current
//! one or one of the partial lists.

ghost use Rattle.std.specs.Prelude.{◌≡◌, ◌+◌, ◌<◌, ◌≤◌, ◌++◌, [], drop, reverse, take, None, Some, length, MatchBool, MatchOption};
ghost use Rattle.slub_lists.specs.Alloc.{IsStocked, cpu_place, from_current, from_free, from_node, from_partial, lists_of, node_of, own_free, retired, taken_up, with_frozen};
ghost use Rattle.slub_lists.specs.Coherent.{IsConsistent, IsShaped};
ghost use Rattle.slub_lists.specs.Steps.{IsRelisted, IsTakable, PopsNode, PopsPartial};

use crate::lists::Lists;
use crate::node::Node;
use slub_lists::lists::FrameList;

impl Lists {
    /// Where what a CPU has of a cache stands.
    pub(crate) fn place(&self, cache: u8, cpu: u32) -> usize
        requires shaped { IsShaped self.now }
        requires cache { cache < 32 }
        requires cpu { cpu < self.now.cpus }
        ensures place { result ≡ cpu_place self.now cache cpu }
        ensures inside { result < length self.now.cpu_lists }
    {
        cache as usize * self.cpus as usize + cpu as usize
    }

    pub(crate) fn set_frozen(&mut self, frame: u16, frozen: bool)
        requires { frame < length self.old.slabs }
        ensures { self.new ≡ with_frozen self.old frame frozen }
    {
        let slab = &mut self.slabs[frame as usize];
        if let Some(slab) = slab {
            slab.frozen = frozen;
        }
    }

    /// The current slab is unfrozen, stands on no list and is current no more.
    fn retire(&mut self, cache: u8, cpu: u32, frame: u16)
        requires consistent { IsConsistent self.old }
        requires cache { cache < 32 }
        requires cpu { cpu < self.old.cpus }
        requires current { (lists_of self.old cache cpu).current ≡ Some frame }
        requires free { (lists_of self.old cache cpu).free ≡ [] }
        ensures retired { self.new ≡ retired self.old cache cpu frame }
        ensures consistent { IsConsistent self.new }
    {
        let at = self.place(cache, cpu);
        self.set_frozen(frame, false);
        self.cpu_lists[at].current = None;
    }

    /// A slab is frozen and current, and its whole freelist is the CPU freelist (`get_freelist`).
    fn take_up(&mut self, cache: u8, cpu: u32, frame: u16)
        requires consistent { IsConsistent self.old }
        requires cache { cache < 32 }
        requires cpu { cpu < self.old.cpus }
        requires takable { IsTakable self.old cache cpu frame }
        ensures taken { self.new ≡ taken_up self.old cache cpu frame (lists_of self.old cache cpu).partial }
        ensures stocked { 0 < length (lists_of self.new cache cpu).free }
        ensures consistent { IsConsistent self.new }
    {
        let at = self.place(cache, cpu);
        self.set_frozen(frame, true);
        let lists = &mut self.cpu_lists[at];
        self.frees.move_to(frame, &mut lists.free);
        lists.current = Some(frame);
    }

    /// Sees to it that the CPU freelist isn't empty: by the current slab, the CPU's partial list
    /// or the node list. False where none of these has a slab with a free object, and then there is
    /// no current slab.
    pub(crate) fn stock(&mut self, cache: u8, cpu: u32, batch: usize) -> bool
        requires consistent { IsConsistent self.old }
        requires cache { cache < 32 }
        requires cpu { cpu < self.old.cpus }
        ensures cases { IsStocked (from_free self.old cache cpu batch (lists_of self.old cache cpu).free) result self.new }
        ensures stocked { MatchBool result (0 < length (lists_of self.new cache cpu).free) ((lists_of self.new cache cpu).current ≡ None) }
        ensures relisted { IsRelisted self.old self.new }
        ensures consistent { IsConsistent self.new }
    {
        let at = self.place(cache, cpu);
        if !self.cpu_lists[at].free.is_empty() {
            return true;
        }
        match self.cpu_lists[at].current {
            Some(frame) => self.stock_from_current(cache, cpu, batch, frame),
            None => self.stock_from_partial(cache, cpu, batch),
        }
    }

    /// By the current slab's own freelist, or else by the lists.
    fn stock_from_current(&mut self, cache: u8, cpu: u32, batch: usize, frame: u16) -> bool
        requires consistent { IsConsistent self.old }
        requires cache { cache < 32 }
        requires cpu { cpu < self.old.cpus }
        requires current { (lists_of self.old cache cpu).current ≡ Some frame }
        requires free { (lists_of self.old cache cpu).free ≡ [] }
        ensures cases { IsStocked (from_current self.old cache cpu batch frame (own_free self.old frame)) result self.new }
        ensures stocked { MatchBool result (0 < length (lists_of self.new cache cpu).free) ((lists_of self.new cache cpu).current ≡ None) }
        ensures relisted { IsRelisted self.old self.new }
        ensures consistent { IsConsistent self.new }
    {
        if self.frees.is_empty_at(frame) {
            self.retire(cache, cpu, frame);
            return self.stock_from_partial(cache, cpu, batch);
        }
        self.take_up(cache, cpu, frame);
        true
    }

    /// By the CPU's partial list, or else by the node list.
    fn stock_from_partial(&mut self, cache: u8, cpu: u32, batch: usize) -> bool
        requires consistent { IsConsistent self.old }
        requires cache { cache < 32 }
        requires cpu { cpu < self.old.cpus }
        requires current { (lists_of self.old cache cpu).current ≡ None }
        ensures cases { IsStocked (from_partial self.old cache cpu batch (lists_of self.old cache cpu).partial) result self.new }
        ensures stocked { MatchBool result (0 < length (lists_of self.new cache cpu).free) ((lists_of self.new cache cpu).current ≡ None) }
        ensures relisted { IsRelisted self.old self.new }
        ensures consistent { IsConsistent self.new }
    {
        let Some(frame) = self.pop_partial(cache, cpu) else {
            return self.stock_from_node(cache, cpu, batch);
        };
        self.take_up(cache, cpu, frame);
        true
    }

    /// By the node list.
    fn stock_from_node(&mut self, cache: u8, cpu: u32, batch: usize) -> bool
        requires consistent { IsConsistent self.old }
        requires cache { cache < 32 }
        requires cpu { cpu < self.old.cpus }
        requires current { (lists_of self.old cache cpu).current ≡ None }
        requires partial { (lists_of self.old cache cpu).partial ≡ [] }
        ensures cases { IsStocked (from_node self.old cache cpu batch (node_of self.old cache)) result self.new }
        ensures stocked { MatchBool result (0 < length (lists_of self.new cache cpu).free) ((lists_of self.new cache cpu).current ≡ None) }
        ensures relisted { IsRelisted self.old self.new }
        ensures consistent { IsConsistent self.new }
    {
        let Some(frame) = self.pop_node(cache, cpu, batch) else {
            return false;
        };
        self.take_up(cache, cpu, frame);
        true
    }

    /// Takes the front off the CPU's partial list.
    fn pop_partial(&mut self, cache: u8, cpu: u32) -> Option<u16>
        requires consistent { IsConsistent self.old }
        requires cache { cache < 32 }
        requires cpu { cpu < self.old.cpus }
        requires current { (lists_of self.old cache cpu).current ≡ None }
        ensures popped { MatchOption result (((lists_of self.old cache cpu).partial ≡ []) × (self.new ≡ self.old)) (λ frame. PopsPartial self.old cache cpu frame self.new) }
        ensures consistent { IsConsistent self.new }
    {
        let at = self.place(cache, cpu);
        self.cpu_lists[at].partial.pop()
    }

    /// Takes the head off the node list, and after it `batch` slabs to the CPU's partial list, which
    /// is empty (`get_partial_node`).
    fn pop_node(&mut self, cache: u8, cpu: u32, batch: usize) -> Option<u16>
        requires consistent { IsConsistent self.old }
        requires cache { cache < 32 }
        requires cpu { cpu < self.old.cpus }
        requires current { (lists_of self.old cache cpu).current ≡ None }
        requires partial { (lists_of self.old cache cpu).partial ≡ [] }
        ensures popped { MatchOption result ((node_of self.old cache ≡ []) × (self.new ≡ self.old)) (λ frame. PopsNode self.old cache cpu batch frame self.new) }
        ensures consistent { IsConsistent self.new }
    {
        let at = self.place(cache, cpu);
        let node = &mut self.nodes[cache as usize];
        let frame = node.pop()?;
        gather(&mut self.cpu_lists[at].partial, node, batch);
        Some(frame)
    }
}

/// Takes up to `most` slabs off the head of a node list, and puts each at the front of a CPU's partial
/// list.
fn gather(partial: &mut FrameList, node: &mut Node, most: usize)
    requires { length partial.old + length node.old ≤ 4095 }
    ensures here { partial.new ≡ reverse (take most node.old) ++ partial.old }
    ensures there { node.new ≡ drop most node.old }
{
    for _ in 0..most {
        let Some(frame) = node.pop() else {
            return;
        };
        partial.push(frame);
    }
}
