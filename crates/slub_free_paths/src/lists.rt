//! `remove_partial`: a slab that is taken off a node list, wherever it stands.

ghost use Rattle.std.specs.Prelude.{◌≡◌};
ghost use Rattle.slub_common.specs.Times.{times};
ghost use Rattle.slub_core.specs.Setup.{node_lock};
ghost use Rattle.slub_core.specs.World as value;
ghost use Rattle.slub_core.specs.World.{update, frames_in};
ghost use Rattle.slub_core.specs.Free.{without};
ghost use Rattle.slub_core.specs.Values.{value_in, values_of, room_in, rooms_of};

use slub_core::guarded::Guarded;

/// Takes a slab off the node list of a cache (`remove_partial`), where it stands once.
pub fn take_off(values: &mut [Guarded], cache: u8, frame: u16)
    requires { times frame (frames_in (values_of values.old (node_lock cache))) ≡ 1 }
    ensures after { values_of values.new ≡ update (values_of values.old) (node_lock cache) (value.Node (without (frames_in (values_of values.old (node_lock cache))) frame)) }
    ensures rooms { rooms_of values.new ≡ rooms_of values.old }
{
    remove(&mut values[usize::from(cache) + 1], frame);
}

/// Takes a slab off a node list.
fn remove(guarded: &mut Guarded, frame: u16)
    requires { times frame (frames_in (value_in guarded.old)) ≡ 1 }
    ensures after { value_in guarded.new ≡ value.Node (without (frames_in (value_in guarded.old)) frame) }
    ensures room { room_in guarded.new ≡ room_in guarded.old }
{
    match guarded {
        Guarded::Node(list) => {
            let _found = list.remove(frame);
        }
        _ => unreachable!(),
    }
}
