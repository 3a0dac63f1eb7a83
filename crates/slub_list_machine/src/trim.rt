//! `shrink_store`, `__kmem_cache_do_shrink`: shrinking caches in the midst of a round.

ghost use Rattle.std.specs.Prelude.{◌≡◌, ℕ, ◌+◌, ◌<◌, None, IsSome, length};
ghost use Rattle.slub_lists.specs.Alloc.{cache_of, checked_of};
ghost use Rattle.slub_lists.specs.Coherent.{IsCoherent, KeepsOthers};
ghost use Rattle.slub_lists.specs.Shrink.{ShrinksCache, slabs_of};
ghost use Rattle.slub_lists.specs.Shrinking.{KeepsChecked};
ghost use Rattle.slub_lists.specs.Trim.{Trims};

use crate::lists::Lists;
use slub_trace::reply::Reply;

impl Lists {
    /// Shrinks the cache that the name at a place names, and answers how many of its slabs were discarded.
    ///
    /// NoSuchCache exactly where the name isn't live, and Checked exactly where the cache is checked;
    /// nothing changes then.
    pub fn trim(&mut self, place: u32) -> Reply
        requires coherent { IsCoherent self.old }
        requires place { place < length self.old.table.kept }
        ensures trims { Trims self.old place result self.new }
        ensures board { self.new.board ≡ self.old.board }
        ensures others { (object : ℕ) → KeepsOthers self.old object self.new }
        ensures coherent { IsCoherent self.new }
    {
        let Some(cache) = self.table.at(place) else {
            return Reply::NoSuchCache;
        };
        if self.checked[cache as usize].is_some() {
            return Reply::Checked;
        }
        Reply::Trimmed(self.trim_cache(cache))
    }

    /// Shrinks a cache that is not checked. The answer is how many slabs went.
    fn trim_cache(&mut self, cache: u8) -> u32
        requires coherent { IsCoherent self.old }
        requires live { IsSome (cache_of self.old cache) }
        requires unchecked { checked_of self.old cache ≡ None }
        ensures shrinks { ShrinksCache self.old cache self.new }
        ensures discarded { slabs_of self.old cache ≡ result + slabs_of self.new cache }
        ensures rest { KeepsChecked self.old self.new }
        ensures coherent { IsCoherent self.new }
    {
        let before = self.count_slabs(cache);
        let min_partial = self.table.layout(cache).min_partial;
        self.shrink_unchecked(cache, min_partial);
        before - self.count_slabs(cache)
    }
}
