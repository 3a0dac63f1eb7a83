//! The order in which a bulk free frees.

ghost use Rattle.std.specs.Prelude.{◌≡◌, ◌+◌, ◌≤◌, ◌==◌, ◌++◌, drop, length, take};
ghost use Rattle.std.specs.List.{list_any};
ghost use Rattle.slub_slabinfo_text.specs.Bulk.{free_order, objects_of_slab};
ghost use Rattle.slub_bulk.specs.Places.{places_of};

/// Where an object stands: its number, and its slab's first frame.
#[derive(Clone, Copy, Debug, PartialEq, Eq)]
pub struct ObjectAt {
    pub object: u32,
    pub frame: u16,
}

/// Writes the numbers of objects in the order of a bulk free (`build_detached_freelist`): slab by slab,
/// the slabs in the order of their first objects, the objects of a slab in their order. It takes no
/// memory, and at most one pass over the objects for each of them.
pub fn free_order(places: &[ObjectAt], out: &mut [u32])
    requires { length out.old ≡ length places.now }
    ensures { out.new ≡ free_order (places_of places.now) }
{
    let mut at = 0;
    for first in 0..places.len() {
        let frame = places[first].frame;
        if !has_slab(&places[..first], frame) {
            at = write_slab(places, frame, out, at);
        }
    }
}

/// Whether one of the objects is of this slab.
fn has_slab(places: &[ObjectAt], frame: u16) -> bool
    ensures { result ≡ list_any (λ place. place.frame == frame) places.now }
{
    places.iter().any(|place| place.frame == frame)
}

/// Writes the numbers of a slab's objects from a place on, and says where they end.
fn write_slab(places: &[ObjectAt], frame: u16, out: &mut [u32], from: usize) -> usize
    requires room { from + length (objects_of_slab (places_of places.now) frame) ≤ length out.old }
    ensures end { result ≡ from + length (objects_of_slab (places_of places.now) frame) }
    ensures written { out.new ≡ take from out.old
        ++ objects_of_slab (places_of places.now) frame ++ drop result out.old }
{
    let mut at = from;
    for place in places {
        if place.frame == frame {
            out[at] = place.object;
            at += 1;
        }
    }
    at
}
