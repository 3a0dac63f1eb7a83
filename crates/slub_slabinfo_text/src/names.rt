//! The names of a trace, and those of the classes' caches.

ghost use Rattle.std.specs.Prelude.{◌≡◌, ◌<◌, length};
ghost use Rattle.slub_trace.specs.Classes.{class_names};
ghost use Rattle.slub_slabinfo_text.specs.Lawful.{name_at};

use slub_object_layout::name::Name;
use slub_trace::classes::class_name;
use slub_trace::trace::Trace;

/// The name at a place of the trace's names.
pub fn name_of(trace: &Trace, place: u32) -> &Name
    requires { place < length trace.now.names }
    ensures { result.now ≡ name_at trace.now place }
{
    &trace.names.as_slice()[place as usize]
}

/// The names of the classes' caches, in rising order of the classes.
#[tactic(auto, unfolding(slub_trace::specs::Classes::class_names))]
pub fn class_names() -> [Name; 13]
    ensures { result ≡ class_names }
{
    [
        class_name(0),
        class_name(1),
        class_name(2),
        class_name(3),
        class_name(4),
        class_name(5),
        class_name(6),
        class_name(7),
        class_name(8),
        class_name(9),
        class_name(10),
        class_name(11),
        class_name(12),
    ]
}
