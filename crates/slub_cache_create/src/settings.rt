//! What becomes of a live cache that is set.

ghost use Rattle.std.specs.Prelude.{◌≡◌, ◌<◌, ◌≤◌};
ghost use Rattle.slub_object_layout.specs.Layout.{cpu_partial_slabs_of};
ghost use Rattle.slub_cache_create.specs.Tune.{Takes, tuned};

use crate::caches::Cache;
use slub_object_layout::layout::{Layout, Setting};

/// How many slabs a CPU's partial list takes where it is to hold this many free objects, at most 4096:
/// each slab of `objects` objects is taken as half full, and a part counts whole (`slub_set_cpu_partial`).
pub fn cpu_partial_slabs_of(cpu_partial: u32, objects: u32) -> u32
    requires some { 0 < objects }
    requires most { cpu_partial ≤ 4096 }
    ensures { result ≡ cpu_partial_slabs_of cpu_partial objects }
{
    (2 * cpu_partial).div_ceil(objects)
}

/// A live cache of which one number is set.
pub(crate) fn tuned(live: &Cache, setting: Setting) -> Cache
    requires takes { Takes live.now.flags setting }
    requires some { 0 < live.now.layout.objects }
    ensures { result ≡ tuned setting live.now }
{
    let layout = live.layout;
    let layout = match setting {
        Setting::MinPartial(min_partial) => Layout {
            min_partial,
            ..layout
        },
        Setting::CpuPartial(cpu_partial) => Layout {
            cpu_partial_slabs: cpu_partial_slabs_of(cpu_partial, layout.objects),
            ..layout
        },
    };
    Cache { layout, ..*live }
}
