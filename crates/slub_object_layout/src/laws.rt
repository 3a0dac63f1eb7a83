//! What follows from the clauses of `layout`, for the crates above. None of these does anything.

ghost use Rattle.std.specs.Prelude.{◌≡◌, ℕ, ◌+◌, ◌%◌, ◌<◌, IsTrue};
ghost use Rattle.slub_object_layout.specs.Layout.{IsAccepted, IsLayout, IsWithinBounds, IsInSlot, IsInRun, IsInPointer, IsInUse, has_pointer_behind, address_of};

use crate::layout::{Layout, Spec};

/// A spec has one layout.
pub fn layout_is_unique(spec: &Spec, cpus: u32, one: &Layout, other: &Layout)
    requires one { IsLayout spec.now cpus one.now }
    requires other { IsLayout spec.now cpus other.now }
    ensures { one.now ≡ other.now }
{}

/// No byte lies in two slots of a slab.
pub fn slots_are_apart(frame: u32, layout: &Layout)
    ensures { (i j byte : ℕ) → IsInSlot frame i layout.now byte → IsInSlot frame j layout.now byte → i ≡ j }
{}

/// The slots of a slab lie in its frames, of the usual order and of the least.
pub fn slots_lie_in_slab(frame: u32, layout: &Layout)
    requires { IsWithinBounds layout.now }
    ensures usual { (index byte : ℕ) → index < layout.now.objects → IsInSlot frame index layout.now byte → IsInRun frame layout.now.order byte }
    ensures least { (index byte : ℕ) → index < layout.now.min_objects_slab → IsInSlot frame index layout.now byte → IsInRun frame layout.now.min_order byte }
{}

/// The eight bytes of a free pointer lie in its slot, whole words from its beginning and from that of memory.
pub fn pointer_lies_in_slot(frame: u32, layout: &Layout)
    requires { IsWithinBounds layout.now }
    ensures in_slot { (index byte : ℕ) → IsInPointer frame index layout.now byte → IsInSlot frame index layout.now byte }
    ensures in_words { (layout.now.left_pad + layout.now.offset) % 8 ≡ 0 }
    ensures address_in_words { (index : ℕ) → address_of frame index layout.now % 8 ≡ 0 }
{}

/// Each object stands at a multiple of its cache's alignment.
pub fn objects_are_aligned(frame: u32, spec: &Spec, cpus: u32, layout: &Layout)
    requires accepted { IsAccepted spec.now }
    requires solved { IsLayout spec.now cpus layout.now }
    ensures { (index : ℕ) → address_of frame index layout.now % layout.now.align ≡ 0 }
{}

/// A free pointer behind the object shares no byte with it or with its right red zone.
#[tactic(auto, unfolding(crate::specs::Layout::offset_of))]
pub fn pointer_spares_object(frame: u32, spec: &Spec, cpus: u32, layout: &Layout)
    requires solved { IsLayout spec.now cpus layout.now }
    requires behind { IsTrue (has_pointer_behind spec.now) }
    ensures { (index byte : ℕ) → IsInPointer frame index layout.now byte → ¬ IsInUse frame index layout.now byte }
{}
