//! What follows from the definitions. None of these does anything.

ghost use Rattle.std.specs.Prelude.{◌≡◌, ◌<◌, length, slice_get, slice_index_or};
ghost use Rattle.slub_recorded.specs.Naming.{first_slot, known_objects, known_of, name_slots};
ghost use Rattle.slub_recorded.specs.Pairing.{seen};
ghost use Rattle.slub_recorded.specs.Told.{fate_notes, sum_told};

use crate::pairing::{Born, Move};
use slub_recording::event::KmemEvent;

/// What is told of the fates of events adds up to all events.
pub fn fates_add_up(events: &[KmemEvent])
    ensures { sum_told (fate_notes (seen events.now).fates) ≡ length events.now }
{}

/// Of these names, each has the slot of the first object whose free says it.
pub fn first_free_tells_slot(names: usize, objects: &[Born], moves: &[Move], name: usize)
    requires { name < names }
    ensures { slice_index_or (name_slots names objects.now moves.now) name None
        ≡ first_slot objects.now name moves.now }
{}

/// Each object has the name that its own free says, where this name has the object's slot.
pub fn own_free_names(
    slots: &[Option<u32>],
    objects: &[Born],
    moves: &[Move],
    object: usize,
    born: &Born,
)
    requires { slice_get objects.now object ≡ Some born.now }
    ensures { slice_get (known_objects slots.now objects.now moves.now) object
        ≡ Some (known_of slots.now moves.now object born.now) }
{}
