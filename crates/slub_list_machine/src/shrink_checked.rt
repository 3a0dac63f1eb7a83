//! `__kmem_cache_do_shrink`: shrinking checked caches, whose slabs stand on no list but their own.

ghost use Rattle.std.specs.Prelude.{◌≡◌, ℕ, ◌<◌, ◌≤◌, false, length, IsSome, MatchOption, slice_index};
ghost use Rattle.slub_common.specs.Times.{times};
ghost use Rattle.slub_lists.specs.Alloc.{checked_of};
ghost use Rattle.slub_lists.specs.Coherent.{IsCoherent};
ghost use Rattle.slub_lists.specs.Leaving.{KeepsHeld, LeavesSlabs};
ghost use Rattle.slub_lists.specs.Shrink.{PromotesChecked, ShrinksChecked, busy_of, has_slab, swept_checked, swept_checked_slab};
ghost use Rattle.slub_lists.specs.Shrinking.{all_free_in, listed_of};

use crate::lists::Lists;

impl Lists {
    /// Discards the listed slabs of which all objects are free, and puts the others in order.
    pub(crate) fn shrink_checked(&mut self, cache: u8)
        requires coherent { IsCoherent self.old }
        requires checked { IsSome (checked_of self.old cache) }
        ensures shrinks { MatchOption (checked_of self.old cache) ⊥ (λ slabs. ShrinksChecked self.old cache slabs self.new) }
        ensures emptied { busy_of self.old cache ≡ 0 → has_slab self.new cache ≡ false }
        ensures slabs { LeavesSlabs self.old cache self.new }
        ensures kept { KeepsHeld self.old self.new }
        ensures coherent { IsCoherent self.new }
    {
        self.sweep_checked(cache);
        self.promote_checked(cache);
    }

    /// Discards the listed slabs of which all objects are free.
    fn sweep_checked(&mut self, cache: u8)
        requires coherent { IsCoherent self.old }
        requires checked { IsSome (checked_of self.old cache) }
        ensures swept { MatchOption (checked_of self.old cache) ⊥ (λ slabs. self.new ≡ swept_checked self.old cache slabs) }
        ensures used { (frame : ℕ) → 0 < times frame (listed_of self.new cache) → all_free_in self.new cache frame ≡ false }
        ensures checked { IsSome (checked_of self.new cache) }
        ensures busy { busy_of self.new cache ≤ busy_of self.old cache }
        ensures slabs { LeavesSlabs self.old cache self.new }
        ensures kept { KeepsHeld self.old self.new }
        ensures coherent { IsCoherent self.new }
    {
        let mut place = 0;
        while let Some(frame) = self.listed_at(cache, place) {
            if !self.sweep_checked_slab(cache, frame) {
                place += 1;
            }
        }
    }

    /// The slab at a place of the listed ones, if there is one.
    fn listed_at(&self, cache: u8, place: usize) -> Option<u16>
        requires { IsSome (checked_of self.now cache) }
        ensures slab { MatchOption result (length (listed_of self.now cache) ≤ place) (λ frame. (place < length (listed_of self.now cache)) × (slice_index (listed_of self.now cache) place ≡ frame)) }
        ensures room { length (listed_of self.now cache) ≤ 4096 }
    {
        match &self.checked[cache as usize] {
            Some(slabs) => slabs.listed().get(place).copied(),
            None => unreachable!(),
        }
    }

    /// Discards a listed slab where all of its objects are free, and says whether it did.
    fn sweep_checked_slab(&mut self, cache: u8, frame: u16) -> bool
        requires coherent { IsCoherent self.old }
        requires checked { IsSome (checked_of self.old cache) }
        requires there { 0 < times frame (listed_of self.old cache) }
        ensures gone { result ≡ all_free_in self.old cache frame }
        ensures swept { self.new ≡ swept_checked_slab cache self.old frame }
        ensures coherent { IsCoherent self.new }
    {
        self.discard_spare(cache, frame, 0);
        self.slabs[frame as usize].is_none()
    }

    /// Puts the listed slabs in order.
    fn promote_checked(&mut self, cache: u8)
        requires coherent { IsCoherent self.old }
        requires checked { IsSome (checked_of self.old cache) }
        ensures promotes { PromotesChecked self.old cache self.new }
        ensures coherent { IsCoherent self.new }
    {
        match &mut self.checked[cache as usize] {
            Some(slabs) => slabs.promote(),
            None => unreachable!(),
        }
    }
}
