//! `slub_cpu_dead`, `__flush_cpu_slab`: emptying a CPU in the midst of a round.

ghost use Rattle.std.specs.Prelude.{◌≡◌, ℕ, ◌<◌, ◌≤◌, IsSome};
ghost use Rattle.slub_lists.specs.Alloc.{cache_of, lists_of};
ghost use Rattle.slub_lists.specs.Coherent.{IsCoherent, KeepsOthers};
ghost use Rattle.slub_lists.specs.Flush.{Flushes, flushed_cpu, flushed_of, slabs_on, slabs_on_cpu};
ghost use Rattle.slub_lists.specs.Shrinking.{KeepsChecked};

use crate::lists::Lists;
use slub_trace::reply::Reply;

impl Lists {
    /// Takes what a CPU has of the caches that are not checked to their node lists, the oldest cache first,
    /// and answers how many slabs it had: current ones and those of partial lists, discarded now or not.
    pub fn flush(&mut self, cpu: u32) -> Reply
        requires coherent { IsCoherent self.old }
        requires cpu { cpu < self.old.cpus }
        ensures flushes { Flushes self.old cpu result self.new }
        ensures board { self.new.board ≡ self.old.board }
        ensures others { (object : ℕ) → KeepsOthers self.old object self.new }
        ensures coherent { IsCoherent self.new }
    {
        let moved = self.slabs_on_cpu(cpu);
        self.flush_caches(cpu);
        Reply::Flushed(moved)
    }

    /// How many slabs a CPU has of all caches.
    fn slabs_on_cpu(&self, cpu: u32) -> u32
        requires coherent { IsCoherent self.now }
        requires cpu { cpu < self.now.cpus }
        ensures { result ≡ slabs_on_cpu self.now cpu }
    {
        let mut slabs = 0;
        for cache in self.table.in_order() {
            slabs += self.slabs_on(*cache, cpu);
        }
        slabs
    }

    /// How many slabs a CPU has of a cache: its current one, and those of its partial list.
    fn slabs_on(&self, cache: u8, cpu: u32) -> u32
        requires coherent { IsCoherent self.now }
        requires cache { cache < 32 }
        requires cpu { cpu < self.now.cpus }
        ensures slabs { result ≡ slabs_on (lists_of self.now cache cpu) }
        ensures most { result ≤ 4096 }
    {
        let lists = &self.cpu_lists[self.place(cache, cpu)];
        u32::from(lists.current.is_some()) + lists.partial.len() as u32
    }

    /// Flushes a CPU of every cache that is not checked, from the oldest on.
    fn flush_caches(&mut self, cpu: u32)
        requires coherent { IsCoherent self.old }
        requires cpu { cpu < self.old.cpus }
        ensures flushed { self.new ≡ flushed_cpu self.old cpu }
        ensures rest { KeepsChecked self.old self.new }
        ensures coherent { IsCoherent self.new }
    {
        for place in 0..self.table.in_order().len() {
            let cache = self.table.in_order()[place];
            self.flush_of(cache, cpu);
        }
    }

    /// Flushes a CPU of a cache, where that is not checked.
    fn flush_of(&mut self, cache: u8, cpu: u32)
        requires coherent { IsCoherent self.old }
        requires live { IsSome (cache_of self.old cache) }
        requires cpu { cpu < self.old.cpus }
        ensures flushed { self.new ≡ flushed_of cpu self.old cache }
        ensures rest { KeepsChecked self.old self.new }
        ensures coherent { IsCoherent self.new }
    {
        if self.checked[cache as usize].is_some() {
            return;
        }
        let min_partial = self.table.layout(cache).min_partial;
        self.flush_cache(cache, cpu, min_partial);
    }
}
