//! What follows from the definitions, for the crates above. None of these does anything.

ghost use Rattle.std.specs.Prelude.{◌≡◌, ◌↔◌, ℕ, ℤ, ◌+◌, ◌*◌, ◌^◌, ◌<◌, ◌≤◌, length, slice_range, IsTrue, Option, None, Some, Result, Ok};
ghost use Rattle.std.specs.Int.{w64, from_le_bytes};
ghost use Rattle.slub_object_layout.specs.Layout.{IsWithinBounds, IsSized};
ghost use Rattle.slub_red_zone.specs.Zones as spec;
ghost use Rattle.slub_trace.specs.declared.damage.Damage.{Damage};
ghost use Rattle.slub_red_zone.specs.Bytes.{AreWhole, IsWritten, Tells};
ghost use Rattle.slub_red_zone.specs.Sound.{IsLayoutFor, IsSound};
ghost use Rattle.slub_red_zone.specs.State.{CheckedState, Has, IsUsed, bytes_of};
ghost use Rattle.slub_red_zone.specs.Changes.{IsObject, KeepsBytes, GivesBytes, TakesBytes, PokesBytes, WritesWord};
ghost use Rattle.slub_red_zone.specs.Steps as step;
ghost use Rattle.slub_red_zone.specs.Told.{SetsNoneAside, TellsOfSlabs};
ghost use Rattle.slub_red_zone.specs.declared.checked.OutOfSlot.{OutOfSlot};
ghost use Rattle.slub_red_zone.specs.declared.checked.Run.{Run};
ghost use Rattle.slub_red_zone.specs.declared.checked.Slot.{Slot};
ghost use Rattle.slub_red_zone.specs.declared.checked.CheckedGive.{CheckedGive};
ghost use Rattle.slub_red_zone.specs.declared.checked.CheckedGive.TheVariants.{Given};

use slub_object_layout::layout::{Flags, Layout};

/// Nothing keeps an object from being given exactly where F isn't set or every byte of each examined
/// part is the wanted one, and so it is with taking back.
pub fn no_damage_where_whole(layout: &Layout, flags: &Flags, slot: &[u8])
    requires bounds { IsWithinBounds layout.now }
    requires slot { length slot.now ≡ layout.now.size }
    ensures given { spec.damage_when_given layout.now flags.now slot.now ≡ None
        ↔ (IsTrue flags.now.checks → AreWhole slot.now (spec.examined_free layout.now flags.now)) }
    ensures taken { spec.damage_when_taken layout.now flags.now slot.now ≡ None
        ↔ (IsTrue flags.now.checks → AreWhole slot.now (spec.examined_used layout.now flags.now)) }
{}

/// What is told is a byte of an examined part, as it stands in the slot, and not the wanted one.
pub fn damage_tells(layout: &Layout, flags: &Flags, slot: &[u8])
    requires bounds { IsWithinBounds layout.now }
    requires slot { length slot.now ≡ layout.now.size }
    ensures given { (damage : Damage)
        → spec.damage_when_given layout.now flags.now slot.now ≡ Some damage
        → Tells layout.now slot.now (spec.examined_free layout.now flags.now) damage }
    ensures taken { (damage : Damage)
        → spec.damage_when_taken layout.now flags.now slot.now ≡ Some damage
        → Tells layout.now slot.now (spec.examined_used layout.now flags.now) damage }
{}

/// Setting an object up writes its parts, and leaves every other byte of its slot.
pub fn setting_up_writes_its_parts(layout: &Layout, flags: &Flags, byte: u8, slot: &[u8])
    requires bounds { IsWithinBounds layout.now }
    requires slot { length slot.now ≡ layout.now.size }
    ensures { let new = spec.set_up layout.now flags.now byte slot.now in
        IsWritten slot.now (spec.written layout.now flags.now byte) new }
{}

/// Every byte of a new slab's slots that is examined before an object is given is the wanted one.
pub fn new_slots_are_whole(layout: &Layout, flags: &Flags)
    requires { IsLayoutFor flags.now layout.now }
    ensures { let slot = spec.new_slot layout.now flags.now in
        AreWhole slot (spec.examined_free layout.now flags.now) }
{}

/// Each object of a new slab is set up as free, and nothing keeps it from being given.
pub fn objects_of_a_new_slab_are_whole()
    ensures sound { (s : CheckedState) (run : Run) (objects : ℕ) → IsSound s → ¬ Has s run.frame
        → 1 ≤ run.frame → run.frame < 4096 → IsSized s.layout run.order objects
        → IsSound (step.with_new_slab s run objects) }
    ensures bytes { (s : CheckedState) (run : Run) (objects index : ℕ) → IsSound s
        → run.frame < 4096 → index < objects
        → let slot : Slot = record { frame = run.frame; index = index } in
        bytes_of (step.with_new_slab s run objects) slot ≡ spec.new_slot s.layout s.flags }
    ensures undamaged { (s : CheckedState) (run : Run) (objects index : ℕ) → IsSound s
        → run.frame < 4096 → index < objects
        → let slot : Slot = record { frame = run.frame; index = index } in
        step.damage_of_free (step.with_new_slab s run objects) slot ≡ None }
{}

/// To give the first object of a new slab, and not to examine it, is to give.
pub fn giving_from_a_new_slab_is_giving()
    ensures { (s : CheckedState) (run : Run) (objects : ℕ) (slot : Slot) (after : CheckedState)
        → IsSound s → run.frame < 4096 → IsSized s.layout run.order objects
        → step.GivesNew s run objects (Ok slot) after
        → step.Gives (step.with_new_slab s run objects) (Given slot) after }
{}

/// What giving reports is a byte of an examined part of an object that was free, as it stood there,
/// and objects of a slab are set aside only with a report of one of them.
pub fn giving_tells_of_slabs()
    ensures { (s : CheckedState) (answer : CheckedGive) (after : CheckedState) → IsSound s
        → step.Gives s answer after → TellsOfSlabs s after }
{}

/// No call but giving sets objects aside.
pub fn only_giving_sets_aside()
    ensures taken { (s : CheckedState) (slot : Slot) (answer : Result (Unit {0}) Damage)
        (after : CheckedState) → IsSound s → IsUsed s slot
        → step.TakesBack s slot answer after → SetsNoneAside s after }
    ensures poked { (s : CheckedState) (slot : Slot) (offset : ℤ) (byte : ℕ)
        (answer : Result (Unit {0}) OutOfSlot) (after : CheckedState)
        → step.Pokes s slot offset byte answer after → SetsNoneAside s after }
    ensures written { (s : CheckedState) (slot : Slot) (word value : ℕ)
        → SetsNoneAside s (step.with_word s slot word value) }
    ensures come { (s : CheckedState) (run : Run) (objects : ℕ)
        → SetsNoneAside s (step.with_new_slab s run objects) }
    ensures gone { (s : CheckedState) (frame limit : ℕ) (answer : Option Run) (after : CheckedState)
        → step.TakesEmpty s frame limit answer after → SetsNoneAside s after }
{}

/// Giving writes the parts of the object that is given, and no other byte of any object's slot;
/// taking back those of the object that is taken back.
pub fn giving_and_taking_write_one_object()
    ensures given { (s : CheckedState) (answer : CheckedGive) (after : CheckedState) → IsSound s
        → step.Gives s answer after → GivesBytes s answer after }
    ensures taken { (s : CheckedState) (slot : Slot) (answer : Result (Unit {0}) Damage)
        (after : CheckedState) → IsSound s → IsUsed s slot
        → step.TakesBack s slot answer after → TakesBytes s slot answer after }
{}

/// A poke writes one byte of one object's slot, and a write of a word no byte but the eight of that
/// word.
pub fn poking_and_writing_write_one_place()
    ensures poked { (s : CheckedState) (slot : Slot) (offset : ℤ) (byte : ℕ)
        (answer : Result (Unit {0}) OutOfSlot) (after : CheckedState) → IsSound s → IsObject s slot
        → step.Pokes s slot offset byte answer after → PokesBytes s slot offset byte answer after }
    ensures written { (s : CheckedState) (slot : Slot) (word value : ℕ) → IsSound s → IsUsed s slot
        → 8 * (word + 1) ≤ s.layout.object_size
        → WritesWord s slot word (step.with_word s slot word value) }
{}

/// A word of an object is eight bytes of its slot, and what is written there is read there.
pub fn words_stand_in_slots()
    ensures bytes { (s : CheckedState) (slot : Slot) (word : ℕ) → IsSound s → IsObject s slot
        → 8 * (word + 1) ≤ s.layout.object_size
        → let from = s.layout.left_pad + 8 * word in
        step.word_of s slot word ≡ from_le_bytes w64 (slice_range (bytes_of s slot) from (from + 8)) }
    ensures written { (s : CheckedState) (slot : Slot) (word value : ℕ) → IsSound s → IsUsed s slot
        → 8 * (word + 1) ≤ s.layout.object_size → value < 2 ^ 64
        → step.word_of (step.with_word s slot word value) slot word ≡ value }
{}

/// A slab that comes or goes leaves the bytes of the objects of every other.
pub fn slabs_come_and_go_alone()
    ensures come { (s : CheckedState) (run : Run) (objects : ℕ) → ¬ Has s run.frame
        → KeepsBytes s (step.with_new_slab s run objects) }
    ensures gone { (s : CheckedState) (frame limit : ℕ) (answer : Option Run) (after : CheckedState)
        → IsSound s → step.TakesEmpty s frame limit answer after
        → (slot : Slot) → IsObject after slot → bytes_of after slot ≡ bytes_of s slot }
{}
