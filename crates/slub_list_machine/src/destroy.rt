//! `kmem_cache_destroy`, `__kmem_cache_shutdown`: destroying caches.

ghost use Rattle.std.specs.Prelude.{◌≡◌, ◌<◌, ◌≤◌, false, IsSome, Some};
ghost use Rattle.std.specs.Option.{option_map_or};
ghost use Rattle.slub_cache_create.specs.Drop.{without_alias};
ghost use Rattle.slub_cache_create.specs.Table.{names_of, number_of};
ghost use Rattle.slub_red_zone.specs.State.{aside_count};
ghost use Rattle.slub_lists.specs.Alloc.{cache_of, checked_of};
ghost use Rattle.slub_lists.specs.Coherent.{IsCoherent, IsShaped, KeepsMachine};
ghost use Rattle.slub_lists.specs.Destroy.{Destroys, without};
ghost use Rattle.slub_lists.specs.Shrink.{busy_of, has_slab};

use crate::lists::Lists;
use slub_object_layout::name::Name;
use slub_trace::destroy::{DestroyRefusal, Destroyed};

impl Lists {
    /// Ends a name, and with its last name a cache. After a refusal nothing has changed.
    pub fn destroy(&mut self, name: &Name) -> Result<Destroyed, DestroyRefusal>
        requires coherent { IsCoherent self.old }
        ensures destroys { Destroys self.old name.now result self.new }
        ensures board { self.new.board ≡ self.old.board }
        ensures kept { KeepsMachine self.old self.new }
        ensures coherent { IsCoherent self.new }
    {
        let Some(cache) = self.table.find(name) else {
            return Err(DestroyRefusal::NoSuchCache);
        };
        if self.table.names(cache) > 1 {
            self.drop_alias(name, cache);
            return Ok(Destroyed::NameDropped);
        }
        let busy = self.busy(cache);
        if busy > 0 {
            return Err(DestroyRefusal::Busy(busy));
        }
        self.shrink_cache(cache);
        self.drop_last(name, cache);
        Ok(Destroyed::Gone)
    }

    /// How many objects of a live cache are held, on the board or set aside.
    fn busy(&self, cache: u8) -> u32
        requires coherent { IsCoherent self.now }
        requires live { IsSome (cache_of self.now cache) }
        ensures { result ≡ busy_of self.now cache }
    {
        self.live[cache as usize] as u32 + self.aside(cache)
    }

    /// How many objects of a cache are set aside: at most 4096 slabs of 512.
    fn aside(&self, cache: u8) -> u32
        requires shaped { IsShaped self.now }
        requires cache { cache < 32 }
        ensures aside { result ≡ option_map_or aside_count (checked_of self.now cache) 0 }
        ensures most { result ≤ 2097152 }
    {
        match &self.checked[cache as usize] {
            Some(slabs) => slabs.aside(),
            None => 0,
        }
    }

    /// Takes a name off a cache that has others.
    fn drop_alias(&mut self, name: &Name, cache: u8)
        requires coherent { IsCoherent self.old }
        requires named { number_of self.old.table name.now ≡ Some cache }
        requires others { 1 < names_of self.old.table cache }
        ensures dropped { self.new ≡ record self.old { table = without_alias self.old.table name.now cache } }
        ensures kept { KeepsMachine self.old self.new }
        ensures coherent { IsCoherent self.new }
    {
        let _dropped = self.table.drop_name(name);
    }

    /// Takes a cache without slabs out, with its last name.
    fn drop_last(&mut self, name: &Name, cache: u8)
        requires coherent { IsCoherent self.old }
        requires named { number_of self.old.table name.now ≡ Some cache }
        requires last { names_of self.old.table cache ≡ 1 }
        requires empty { has_slab self.old cache ≡ false }
        ensures dropped { self.new ≡ without self.old name.now cache }
        ensures kept { KeepsMachine self.old self.new }
        ensures coherent { IsCoherent self.new }
    {
        let _dropped = self.table.drop_name(name);
        self.checked[cache as usize] = None;
    }
}
