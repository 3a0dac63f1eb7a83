//! The caches of a `kmalloc` line.

ghost use Rattle.std.specs.Prelude.{◌≡◌, ◌<◌, [], get_or, true};
ghost use Rattle.slub_trace.specs.Classes.{class_names};
ghost use Rattle.slub_trace.specs.Names.{is_name};

use slub_object_layout::name::Name;

/// How many caches a `kmalloc` line creates, one for each class of sizes.
pub const CLASSES: u32 = 13;

/// The name of a class's cache, by its place in rising order of the classes.
#[tactic(auto, unfolding(crate::specs::Classes::class_names))]
pub fn class_name(class: u32) -> Name
    requires { class < 13 }
    ensures { result ≡ get_or class_names class [] }
{
    match class {
        0 => named(b"kmalloc-8"),
        1 => named(b"kmalloc-16"),
        2 => named(b"kmalloc-32"),
        3 => named(b"kmalloc-64"),
        4 => named(b"kmalloc-96"),
        5 => named(b"kmalloc-128"),
        6 => named(b"kmalloc-192"),
        7 => named(b"kmalloc-256"),
        8 => named(b"kmalloc-512"),
        9 => named(b"kmalloc-1k"),
        10 => named(b"kmalloc-2k"),
        11 => named(b"kmalloc-4k"),
        _ => named(b"kmalloc-8k"),
    }
}

/// The name of a text that is one.
fn named(text: &[u8]) -> Name
    requires { is_name text.now ≡ true }
    ensures { result ≡ text.now }
{
    Name::read_bytes(text).unwrap()
}
