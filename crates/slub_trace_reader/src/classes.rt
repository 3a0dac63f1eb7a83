//! The names of a `kmalloc` line.

ghost use Rattle.std.specs.Prelude.{◌≡◌, OnOk};
ghost use Rattle.slub_trace.specs.Classes.{class_names};
ghost use Rattle.slub_trace_reader.specs.Above.{with_names};

use indexmap::IndexSet;
use slub_object_layout::name::Name;
use slub_trace::classes::{CLASSES, class_name};
use std::alloc::AllocError;

/// Puts the classes' names behind the others, those that are new.
pub(crate) fn put_classes(names: &mut IndexSet<Name>) -> Result<(), AllocError>
    ensures { OnOk result (names.new.keys ≡ with_names names.old.keys class_names) }
{
    for class in 0..CLASSES {
        names.insert(class_name(class))?;
    }
    Ok(())
}
