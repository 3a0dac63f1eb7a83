//! A run of the pool for a new slab.

ghost use Rattle.std.specs.Prelude.{◌≡◌, ◌==◌, if◌then◌else◌};
ghost use Rattle.slub_core.specs.Setup.{Setup};
ghost use Rattle.slub_core.specs.Alloc.{found_run};
ghost use Rattle.slub_core.specs.Facts.{IsSmall};
ghost use Rattle.slub_core.specs.Taken.{pool_left};

use crate::local::FrameRun;
use slub_object_layout::layout::Layout;
use slub_page_pool::Pool;

/// Takes a run of the layout's order, else of its least order (`allocate_slab`). None is counted.
pub fn run_from(pool: &mut Pool, layout: &Layout) -> Option<FrameRun>
    requires { IsSmall layout.now }
    ensures found { (m : Setup) → result ≡ found_run m pool.old layout.now }
    ensures left { pool.new ≡ pool_left pool.old layout.now result }
{
    let _frames = pool.frames();
    if let Some(frame) = pool.take(layout.order) {
        return Some(FrameRun {
            frame: frame as u16,
            order: layout.order,
            objects: layout.objects as u16,
        });
    }
    let frame = pool.take_or_note(layout.min_order)?;
    Some(FrameRun {
        frame: frame as u16,
        order: layout.min_order,
        objects: least_objects(layout),
    })
}

/// How many objects a slab of the least order has.
fn least_objects(layout: &Layout) -> u16
    requires { IsSmall layout.now }
    ensures { result ≡ (if layout.now.min_order == layout.now.order then layout.now.objects else layout.now.min_objects_slab) }
{
    if layout.min_order == layout.order {
        layout.objects as u16
    } else {
        layout.min_objects_slab as u16
    }
}
