//! `__kmem_cache_do_shrink`: a node list in the order in which shrinking leaves it.

ghost use Rattle.std.specs.Prelude.{◌≡◌, length};
ghost use Rattle.slub_node_partial.specs.Promotion.{IsPromoted};
ghost use Rattle.slub_core.specs.Setup.{node_lock};
ghost use Rattle.slub_core.specs.World as value;
ghost use Rattle.slub_core.specs.World.{update, frames_in};
ghost use Rattle.slub_core.specs.Values.{value_in, values_of, room_in, rooms_of};
ghost use Rattle.slub_offline.specs.Fits.{IsNodeList};

use slub_core::guarded::Guarded;

/// Puts the node list of a cache into that order, by how many objects of each slab are free.
pub fn promote(values: &mut [Guarded], cache: u8, free: &[u16])
    requires node { IsNodeList (values_of values.old (node_lock cache)) }
    requires as_many { length free.now ≡ length (frames_in (values_of values.old (node_lock cache))) }
    ensures after { values_of values.new ≡ update (values_of values.old) (node_lock cache) (value.Node (frames_in (values_of values.new (node_lock cache)))) }
    ensures promoted { IsPromoted (frames_in (values_of values.old (node_lock cache))) free.now (frames_in (values_of values.new (node_lock cache))) }
    ensures rooms { rooms_of values.new ≡ rooms_of values.old }
{
    put_in_order(&mut values[usize::from(cache) + 1], free);
}

/// Puts a node list into that order.
fn put_in_order(guarded: &mut Guarded, free: &[u16])
    requires node { IsNodeList (value_in guarded.old) }
    requires as_many { length free.now ≡ length (frames_in (value_in guarded.old)) }
    ensures after { value_in guarded.new ≡ value.Node (frames_in (value_in guarded.new)) }
    ensures promoted { IsPromoted (frames_in (value_in guarded.old)) free.now (frames_in (value_in guarded.new)) }
    ensures room { room_in guarded.new ≡ room_in guarded.old }
{
    match guarded {
        Guarded::Node(list) => list.promote(free),
        _ => unreachable!(),
    }
}
