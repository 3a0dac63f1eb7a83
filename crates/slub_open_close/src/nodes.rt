//! What the locks guarded comes back: the pool, node lists and checked slabs.

ghost use Rattle.std.specs.Prelude.{◌≡◌, ℕ, suc, ◌<◌, ◌≤◌, [], length, None, slice_index_or, vec_capacity};
ghost use Rattle.slub_core.specs.World.{frames_in, pool_in};
ghost use Rattle.slub_core.specs.Values.{value_in, values_of, HasPool};
ghost use Rattle.slub_law_opening.specs.Closing.{checked_in};
ghost use Rattle.slub_open_close.specs.declared.opened.KeptNode.{KeptNode as Kept};
ghost use Rattle.slub_core.specs.declared.guarded.Guarded.TheVariants.{Nothing};
ghost use Rattle.slub_open_close.specs.Joins.{Joins};

use crate::opened::KeptNode;
use slub_core::guarded::Guarded;
use slub_list_machine::node::Node;
use slub_page_pool::Pool;
use slub_red_zone::checked::CheckedSlabs;

/// Takes the pool, the node lists and the checked slabs from behind their locks. `nodes` is empty, with
/// room.
pub fn take_back(
    mut values: Vec<Guarded>,
    mut kept: Vec<KeptNode>,
    nodes: &mut Vec<Node>,
    checked: &mut [Option<CheckedSlabs>],
) -> Pool
    requires values { length values.items ≡ 33 }
    requires pool { HasPool values.items }
    requires kept { length kept.items ≡ 32 }
    requires joins { (cache : ℕ) (otherwise : Kept) → cache < 32 → Joins (slice_index_or values.items (suc cache) Nothing) (slice_index_or kept.items cache otherwise) }
    requires nodes { (nodes.old.items ≡ []) × (32 ≤ vec_capacity nodes.old) }
    requires checked { length checked.old ≡ 32 }
    ensures pool { result ≡ pool_in (values_of values.items 0) }
    ensures node_count { length nodes.new.items ≡ 32 }
    ensures nodes { (cache : ℕ) → cache < 32 → slice_index_or nodes.new.items cache [] ≡ frames_in (values_of values.items (suc cache)) }
    ensures checked { (cache : ℕ) → cache < 32 → slice_index_or checked.new cache None ≡ checked_in (values_of values.items (suc cache)) }
{
    for cache in (0..32).rev() {
        let Some(value) = values.pop() else {
            unreachable!()
        };
        let Some(left) = kept.pop() else {
            unreachable!()
        };
        let (node, slabs) = joined(value, left);
        nodes.push_reserved(node);
        checked[cache] = slabs;
    }
    nodes.reverse();
    match values.pop() {
        Some(Guarded::Pool(pool)) => pool,
        _ => unreachable!(),
    }
}

/// The node list and the checked slabs of a cache, put together again.
fn joined(value: Guarded, kept: KeptNode) -> (Node, Option<CheckedSlabs>)
    requires { Joins value kept }
    ensures node { result.0 ≡ frames_in (value_in value) }
    ensures slabs { result.1 ≡ checked_in (value_in value) }
{
    match (value, kept) {
        (Guarded::Node(list), KeptNode::Counts(counts)) => (Node::from_parts(list, counts), None),
        (Guarded::Checked(slabs), KeptNode::Whole(node)) => (node, Some(slabs)),
        (Guarded::Nothing, KeptNode::Whole(node)) => (node, None),
        _ => unreachable!(),
    }
}
