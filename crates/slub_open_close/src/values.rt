//! What the locks guard: the pool, node lists and checked slabs are moved behind their locks.

ghost use Rattle.std.specs.Prelude.{◌≡◌, ◌+◌, ◌≤◌, ◌++◌, [], ℕ, cond, not, ◌&&◌, is_some, length, map, slice_index_or, slice_set, vec_capacity, None, ◌<◌};
ghost use Rattle.std.specs.List.{range_with_len};
ghost use Rattle.slub_lists.specs.Coherent.{IsConsistent};
ghost use Rattle.slub_list_machine.specs.Parts.{state_of};
ghost use Rattle.slub_core.specs.Values.{value_in, values_of, room_in, rooms_of};
ghost use Rattle.slub_law_opening.specs.Opening.{node_value, value_of};
ghost use Rattle.slub_open_close.specs.Opened.{room_of};
ghost use Rattle.slub_open_close.specs.Rest.{IsRestOf, IsUntouched};
ghost use Rattle.slub_open_close.specs.Values.{value_at, room_at, IsKeptOf, AreKept};

use crate::beside::Beside;
use crate::facts::is_live;
use crate::opened::{KeptNode, Rest};
use slub_cache_create::caches::Caches;
use slub_core::guarded::Guarded;
use slub_list_machine::node::Node;
use slub_list_machine::parts::Parts;
use slub_red_zone::checked::CheckedSlabs;
use slub_words::memory::Memory;

/// What the lock of a cache guards, and what is left of its node list.
fn parted(live: bool, slabs: Option<CheckedSlabs>, node: Node) -> (Guarded, KeptNode)
    ensures value { value_in result.0 ≡ node_value live slabs node }
    ensures room { room_in result.0 ≡ cond (live && not (is_some slabs)) 4095 0 }
    ensures kept { IsKeptOf (live && not (is_some slabs)) node result.1 }
{
    match slabs {
        Some(slabs) => (Guarded::Checked(slabs), KeptNode::Whole(node)),
        None if live => {
            let (list, counts) = node.into_parts();
            (Guarded::Node(list), KeptNode::Counts(counts))
        }
        None => (Guarded::Nothing, KeptNode::Whole(node)),
    }
}

/// Moves the pool, the node lists and the checked slabs behind their locks, and the words of the frames out. The rest
/// waits for the end of the round. `values` and `kept` are empty, with room.
pub fn moved(
    parts: Parts,
    beside: Beside,
    mut values: Vec<Guarded>,
    mut kept: Vec<KeptNode>,
) -> (Vec<Guarded>, Memory, Rest)
    requires consistent { IsConsistent (state_of parts) }
    requires tids { length beside.tids.items ≡ 512 }
    requires links { length beside.links.items ≡ parts.frames }
    requires values { (values.items ≡ []) × (33 ≤ vec_capacity values) }
    requires kept { (kept.items ≡ []) × (32 ≤ vec_capacity kept) }
    ensures values { values_of result.0.items ≡ value_of (state_of parts) }
    ensures rooms { rooms_of result.0.items ≡ map (room_of (state_of parts)) (range_with_len 0 33) }
    ensures memory { result.1 ≡ parts.memory }
    ensures rest { IsRestOf (state_of parts) result.2 }
    ensures still { IsUntouched (state_of parts) result.2 }
{
    let Parts {
        frames,
        cpus,
        pool,
        slabs,
        frees,
        table,
        cpu_lists,
        mut nodes,
        mut checked,
        memory,
        board,
        gone,
        live,
    } = parts;
    values.push_reserved(Guarded::Pool(pool));
    move_nodes(&table, &mut nodes, &mut checked, &mut values, &mut kept);
    let rest = Rest {
        frames,
        cpus,
        table,
        slabs,
        frees,
        cpu_lists,
        nodes,
        kept,
        checked,
        board,
        gone,
        live,
        tids: beside.tids,
        links: beside.links,
    };
    (values, memory, rest)
}

/// Moves the node lists and the checked slabs, in the order of cache numbers.
fn move_nodes(
    table: &Caches,
    nodes: &mut Vec<Node>,
    checked: &mut Vec<Option<CheckedSlabs>>,
    values: &mut Vec<Guarded>,
    kept: &mut Vec<KeptNode>,
)
    requires nodes { length nodes.old.items ≡ 32 }
    requires checked { length checked.old.items ≡ 32 }
    requires values { length values.old.items + 32 ≤ vec_capacity values.old }
    requires kept { (kept.old.items ≡ []) × (32 ≤ vec_capacity kept.old) }
    ensures values { map value_in values.new.items ≡ map value_in values.old.items ++ map (value_at table.now nodes.old.items checked.old.items) (range_with_len 0 32) }
    ensures rooms { map room_in values.new.items ≡ map room_in values.old.items ++ map (room_at table.now checked.old.items) (range_with_len 0 32) }
    ensures nodes { (nodes.new.items ≡ []) × (vec_capacity nodes.new ≡ vec_capacity nodes.old) }
    ensures checked { length checked.new.items ≡ 32 }
    ensures taken { (cache : ℕ) → slice_index_or checked.new.items cache None ≡ None }
    ensures kept { length kept.new.items ≡ 32 }
    ensures kept_nodes { AreKept table.now nodes.old.items checked.old.items kept.new.items }
{
    nodes.reverse();
    for cache in 0..32 {
        let Some(node) = nodes.pop() else {
            unreachable!()
        };
        let slabs = take_at(checked, usize::from(cache));
        let (value, left) = parted(is_live(table, cache), slabs, node);
        values.push_reserved(value);
        kept.push_reserved(left);
    }
}

/// Takes the checked slabs of a cache out.
fn take_at(checked: &mut Vec<Option<CheckedSlabs>>, cache: usize) -> Option<CheckedSlabs>
    requires { cache < length checked.old.items }
    ensures value { result ≡ slice_index_or checked.old.items cache None }
    ensures after { checked.new.items ≡ slice_set checked.old.items cache None }
{
    checked[cache].take()
}
