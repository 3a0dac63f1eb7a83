//! What follows from the clauses of `caches`, for the crates above. None of these does anything.

ghost use Rattle.std.specs.Prelude.{◌≡◌, ℕ, ◌-◌, ◌%◌, ◌<◌, ◌≤◌, length};
ghost use Rattle.slub_object_layout.specs.Layout.{IsAccepted, address_of, alignment_of};
ghost use Rattle.slub_cache_create.specs.Create.{Creates, IsLeastUnused};
ghost use Rattle.slub_cache_create.specs.Merging.{Fits, merged_with};
ghost use Rattle.slub_cache_create.specs.Sound.{IsLiveLayout};
ghost use Rattle.slub_cache_create.specs.Table.{Table};
ghost use Rattle.slub_cache_create.specs.Tune.{tuned};

use crate::caches::{Cache, Caches, Created};
use slub_object_layout::layout::{Setting, Spec};

/// Where fewer than 32 names are live, a number is left for a cache: each live cache has a live name.
pub fn a_number_is_left(caches: &Caches)
    requires { length caches.now.live < 32 }
    ensures { (cache : ℕ) × IsLeastUnused caches.now cache }
{
    let _number = caches.unused_number();
}

/// What a creation does is the only thing that it can do.
pub fn creation_is_unique(
    caches: &Caches,
    name: &[u8],
    spec: &Spec,
    cpus: u32,
    one: Created,
    other: Created,
)
    ensures { (a b : Table) → Creates caches.now name.now spec.now cpus one a → Creates caches.now name.now spec.now cpus other b → (one ≡ other) × (a ≡ b) }
{}

/// The objects of a new cache lie in the slots of a live one that it fits, each at a multiple of
/// the alignment that it asks for.
pub fn merged_objects_fit(live: &Cache, spec: &Spec, frame: u32)
    requires accepted { IsAccepted spec.now }
    requires layout { IsLiveLayout live.now.flags live.now.layout }
    requires fits { Fits live.now spec.now }
    ensures within { spec.now.size ≤ live.now.layout.size - live.now.layout.left_pad }
    ensures aligned { (index : ℕ) → address_of frame index live.now.layout % alignment_of spec.now ≡ 0 }
{}

/// Merging forgets no setting: a cache that is set and then merged with is as if it were merged with first.
pub fn merging_keeps_settings(live: &Cache, setting: Setting, spec: &Spec)
    ensures { merged_with spec.now (tuned setting live.now) ≡ tuned setting (merged_with spec.now live.now) }
{}
