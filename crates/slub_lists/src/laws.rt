//! What follows from the definitions, for the crates above. None of these does anything.

ghost use Rattle.std.specs.Prelude.{◌≡◌, ℕ, IsSome, Some};
ghost use Rattle.slub_lists.specs.Coherent.{IsCoherent};
ghost use Rattle.slub_lists.specs.Laws.{HasByte, KeepsWords};
ghost use Rattle.slub_lists.specs.Alloc.{checked_of, slab_of};
ghost use Rattle.slub_lists.specs.Places.{IsByteOf, IsOff, IsWithin};
ghost use Rattle.slub_lists.specs.State.{State};
ghost use Rattle.slub_lists.specs.declared.lists.Slab.{Slab as LiveSlab};
ghost use Rattle.slub_lists.specs.Words.{Writes};
ghost use Rattle.slub_trace.specs.declared.reply.Reply.{Reply as Answer};

/// No byte lies in the slots of two objects that are on the board, whoever holds them.
pub fn held_objects_are_apart()
    ensures { (s : State) (one other byte : ℕ) → IsCoherent s → HasByte s one byte → HasByte s other byte → one ≡ other }
{}

/// A write to an object leaves every word of each other object on the board, whatever it answers.
pub fn writes_spare_other_objects()
    ensures { (s : State) (worker object word value : ℕ) (reply : Answer) (after : State) → IsCoherent s → Writes s worker object word value reply after → KeepsWords s object after }
{}

/// No byte lies in the slots of two objects of live slabs, given or not: so no free pointer is a word of
/// another object, or another object's free pointer.
pub fn objects_are_apart()
    ensures { (s : State) (f i g j byte : ℕ) → IsCoherent s → IsByteOf s f i byte → IsByteOf s g j byte → (f ≡ g) × (i ≡ j) }
{}

/// A live slab lies within the machine, and the order of its run follows from its number of objects.
pub fn slabs_lie_within()
    ensures { (s : State) (frame : ℕ) (slab : LiveSlab) → IsCoherent s → slab_of s frame ≡ Some slab → IsWithin s frame slab }
{}

/// A slab of a checked cache is nobody's current slab, on no list and without a freelist here.
pub fn checked_slabs_are_off()
    ensures { (s : State) (frame : ℕ) (slab : LiveSlab) → IsCoherent s → slab_of s frame ≡ Some slab → IsSome (checked_of s slab.cache) → IsOff s frame slab }
{}
