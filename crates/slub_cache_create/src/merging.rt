//! Whether a new cache can be merged with a live one, and what becomes of that.

ghost use Rattle.std.specs.Prelude.{◌≡◌, ◌≤◌, ◌↔◌, IsTrue};
ghost use Rattle.slub_object_layout.specs.Layout.{IsAccepted};
ghost use Rattle.slub_cache_create.specs.Drop.{less_named};
ghost use Rattle.slub_cache_create.specs.Merging.{Fits, merged_with, wanted_of};

use crate::caches::Cache;
use slub_object_layout::layout::{Layout, Spec, align_up, alignment_of};

/// The bytes of a word.
const WORD: u32 = 8;

/// Whether the objects of a new cache can lie in the slots of a live one (`slab_unmergeable`,
/// `find_mergeable`).
pub fn fits(live: &Cache, spec: &Spec) -> bool
    requires accepted { IsAccepted spec.now }
    ensures { IsTrue result ↔ Fits live.now spec.now }
{
    if live.flags.is_checked() || spec.flags.is_checked() {
        return false;
    }
    let wanted = wanted(spec);
    let slot = live.layout.size;
    live.flags.reclaim == spec.flags.reclaim
        && wanted <= slot
        && slot % alignment_of(spec) == 0
        && slot - wanted < WORD
}

/// A live cache that a new one was merged with (`__kmem_cache_alias`).
pub fn merged(live: &Cache, spec: &Spec) -> Cache
    requires accepted { IsAccepted spec.now }
    requires names { live.now.names ≤ 32 }
    ensures { result ≡ merged_with spec.now live.now }
{
    Cache {
        title: live.title,
        flags: live.flags,
        layout: Layout {
            object_size: live.layout.object_size.max(spec.size),
            inuse: live.layout.inuse.max(align_up(spec.size, WORD)),
            ..live.layout
        },
        names: live.names + 1,
    }
}

/// A live cache with one name less.
pub fn less_named(live: &Cache) -> Cache
    requires { 1 ≤ live.now.names }
    ensures { result ≡ less_named live.now }
{
    Cache {
        title: live.title,
        flags: live.flags,
        layout: live.layout,
        names: live.names - 1,
    }
}

/// The slot that a new cache asks for, in bytes.
fn wanted(spec: &Spec) -> u32
    requires accepted { IsAccepted spec.now }
    ensures { result ≡ wanted_of spec.now }
{
    align_up(align_up(spec.size, WORD), alignment_of(spec))
}
