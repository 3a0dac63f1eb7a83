//! What is done at once under a lock that the worker has.

ghost use Rattle.std.specs.Prelude.{◌≡◌, ◌+◌, [], ◌∷◌, ◌++◌, drop, MatchOption};
ghost use Rattle.slub_page_pool.specs.Block.{CanPut};
ghost use Rattle.slub_core.specs.Setup.{Setup, node_lock, pool_lock};
ghost use Rattle.slub_core.specs.World.{Node, update, frames_in, pool_in};
ghost use Rattle.slub_core.specs.Alloc.{found_run, pool_with};
ghost use Rattle.slub_core.specs.Discard.{with_put};
ghost use Rattle.slub_core.specs.Facts.{IsSmall};
ghost use Rattle.slub_core.specs.Taken.{pool_left};
ghost use Rattle.slub_core.specs.Values.{values_of, rooms_of, HasRoomAt, HasPool};

use crate::guarded::Guarded;
use crate::local::FrameRun;
use slub_object_layout::layout::Layout;

/// The slabs of a cache's node list, head first.
pub fn node(values: &[Guarded], cache: u8) -> &[u16]
    ensures { result.now ≡ frames_in (values_of values.now (node_lock cache)) }
{
    match values.get(usize::from(cache) + 1) {
        Some(value) => value.node(),
        None => &[],
    }
}

/// Takes the head of the node list (`get_partial_node`); None where it is empty.
pub fn pop_node(values: &mut [Guarded], cache: u8) -> Option<u16>
    ensures popped { let frames = frames_in (values_of values.old (node_lock cache)) in
        MatchOption result ((frames ≡ []) × (values_of values.new ≡ values_of values.old))
        (λ frame. (frames ≡ frame ∷ drop 1 frames)
        × (values_of values.new ≡ update (values_of values.old) (node_lock cache) (Node (drop 1 frames)))) }
    ensures rooms { rooms_of values.new ≡ rooms_of values.old }
{
    let lock = usize::from(cache) + 1;
    if lock < values.len() {
        return values[lock].pop();
    }
    None
}

/// Puts a slab at the head of the node list (`add_partial`).
pub fn push_head(values: &mut [Guarded], cache: u8, frame: u16)
    requires { HasRoomAt values.old cache }
    ensures after { values_of values.new ≡ update (values_of values.old) (node_lock cache) (Node (frame ∷ frames_in (values_of values.old (node_lock cache)))) }
    ensures rooms { rooms_of values.new ≡ rooms_of values.old }
{
    values[usize::from(cache) + 1].push_head(frame);
}

/// Puts a slab at the tail of the node list (`add_partial`).
pub fn push_tail(values: &mut [Guarded], cache: u8, frame: u16)
    requires { HasRoomAt values.old cache }
    ensures after { values_of values.new ≡ update (values_of values.old) (node_lock cache) (Node (frames_in (values_of values.old (node_lock cache)) ++ frame ∷ [])) }
    ensures rooms { rooms_of values.new ≡ rooms_of values.old }
{
    values[usize::from(cache) + 1].push_tail(frame);
}

/// Takes a run for a new slab: of the layout's order, else of its least order (`allocate_slab`). None is counted.
pub fn take_run(values: &mut [Guarded], layout: &Layout) -> Option<FrameRun>
    requires small { IsSmall layout.now }
    requires pool { HasPool values.old }
    ensures found { (m : Setup) → result ≡ found_run m (pool_in (values_of values.old pool_lock)) layout.now }
    ensures after { values_of values.new ≡ pool_with (values_of values.old) (pool_left (pool_in (values_of values.old pool_lock)) layout.now result) }
    ensures rooms { rooms_of values.new ≡ rooms_of values.old }
{
    values[0].take_run(layout)
}

/// Puts a run back into the pool (`__free_pages`).
pub fn put_run(values: &mut [Guarded], run: FrameRun)
    requires pool { HasPool values.old }
    requires fits { CanPut (pool_in (values_of values.old pool_lock)) run.frame run.order }
    ensures after { values_of values.new ≡ pool_with (values_of values.old) (with_put (pool_in (values_of values.old pool_lock)) run) }
    ensures rooms { rooms_of values.new ≡ rooms_of values.old }
{
    values[0].put_run(run);
}
