//! The classes of sizes, in bytes.

ghost use Rattle.std.specs.Prelude.{◌≡◌, ◌<◌, IfSome, length, position, nat_le, slice_index};
ghost use Rattle.slub_slabinfo_text.specs.Classes.{class_aligns, class_of, class_place, class_sizes, class_spec, no_flags};

use slub_object_layout::layout::{Flags, Spec};

/// The classes, in rising order.
const SIZES: [u32; 13] = [
    8, 16, 32, 64, 96, 128, 192, 256, 512, 1024, 2048, 4096, 8192,
];

/// The alignments of their caches: the size where it is a power of two and at most 4096, and else 8.
const ALIGNS: [u32; 13] = [8, 16, 32, 64, 8, 128, 8, 256, 512, 1024, 2048, 4096, 8];

/// The class that serves a size, in bytes: the least one that isn't below it (`kmalloc_slab`). None where
/// the size is 0 or above 8192 (*profile*: the kernel serves larger sizes from its page allocator). It
/// takes no memory.
pub fn class_of(size: u32) -> Option<u32>
    ensures { result ≡ class_of size }
{
    Some(size_of(class_place(size)?))
}

/// The place of that class, in rising order of the classes.
pub fn class_place(size: u32) -> Option<u32>
    ensures place { result ≡ class_place size }
    ensures below { IfSome result (λ place. place < 13) }
{
    if size == 0 {
        return None;
    }
    match first_enough(sizes(), size) {
        Some(place) => Some(place as u32),
        None => None,
    }
}

/// The classes, in rising order.
#[tactic(auto, unfolding(slub_slabinfo_text::specs::Classes::class_sizes))]
fn sizes() -> &'static [u32]
    ensures value { result.now ≡ class_sizes }
    ensures count { length result.now ≡ 13 }
{
    &SIZES
}

/// The place of the first class that isn't below a size.
fn first_enough(classes: &[u32], size: u32) -> Option<usize>
    ensures first { result ≡ position (λ class. nat_le size class) classes.now }
    ensures inside { IfSome result (λ at. at < length classes.now) }
{
    classes.iter().position(|class| size <= *class)
}

/// The class at a place, in bytes.
#[tactic(auto, unfolding(slub_slabinfo_text::specs::Classes::class_sizes))]
fn size_of(place: u32) -> u32
    requires { place < 13 }
    ensures { result ≡ slice_index class_sizes place }
{
    SIZES[place as usize]
}

/// The alignment of its cache, in bytes.
#[tactic(auto, unfolding(slub_slabinfo_text::specs::Classes::class_aligns))]
fn align_of(place: u32) -> u32
    requires { place < 13 }
    ensures { result ≡ slice_index class_aligns place }
{
    ALIGNS[place as usize]
}

/// What the cache of the class at a place is asked to be (`create_kmalloc_cache`).
pub(crate) fn class_spec(place: u32) -> Spec
    requires { place < 13 }
    ensures { result ≡ class_spec place }
{
    Spec {
        size: size_of(place),
        align: align_of(place),
        flags: no_flags(),
    }
}

fn no_flags() -> Flags
    ensures { result ≡ no_flags }
{
    Flags {
        line: false,
        reclaim: false,
        checks: false,
        zones: false,
        poison: false,
        user: false,
        trace: false,
        fail: false,
    }
}
