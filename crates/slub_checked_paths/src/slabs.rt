//! `alloc_single_from_partial`, `alloc_single_from_new_slab`, `free_debug_processing`: calls of a
//! checked cache's slabs, which stand behind its lock (writes, reads and pokes are profile).

ghost use Rattle.std.specs.Prelude.{◌≡◌, ◌+◌, ◌*◌, ◌<◌, ◌≤◌, ◌&&◌, nat_lt, if◌then◌else◌, MatchResult, Some, None};
ghost use Rattle.slub_red_zone.specs.State.{IsUsed, Has, slab_of, objects_in};
ghost use Rattle.slub_red_zone.specs.Sound.{IsSound};
ghost use Rattle.slub_object_layout.specs.Layout.{IsSized};
ghost use Rattle.slub_red_zone.specs.Steps.{Gives, damage_of_used, with_taken, with_byte, with_word, word_of, with_given, with_new_slab};
ghost use Rattle.slub_core.specs.Setup.{node_lock};
ghost use Rattle.slub_core.specs.World.{Checked, update};
ghost use Rattle.slub_core.specs.Checked as core;
ghost use Rattle.slub_core.specs.Values.{value_in, values_of, room_in, rooms_of};
ghost use Rattle.slub_checked_paths.specs.Fits.{IsOfKind};
ghost use Rattle.slub_checked_paths.specs.Slabs.{IsCheckedValue, slabs_at, spare_run, less_spare};

use slub_common::no_memory::NoMemory;
use slub_core::call::{Call, CallKind};
use slub_core::guarded::Guarded;
use slub_core::local::FrameRun;
use slub_core::worker_local::Local;
use slub_red_zone::checked::{CheckedGive, CheckedSlabs, Run, Slot};
use slub_trace::damage::Damage;
use slub_trace::reply::Reply;

/// Where the object of the call is.
pub fn slot_of(local: &Local) -> Slot
    ensures { result ≡ core.slot_of local.now }
{
    let here = local.here();
    Slot {
        frame: here.frame,
        index: here.index,
    }
}

/// Gives an object (`alloc_single_from_partial`).
fn give(guarded: &mut Guarded) -> CheckedGive
    requires { IsCheckedValue (value_in guarded.old) }
    ensures after { value_in guarded.new ≡ Checked (slabs_at (value_in guarded.new)) }
    ensures gives { Gives (slabs_at (value_in guarded.old)) result (slabs_at (value_in guarded.new)) }
    ensures sound { IsSound (slabs_at (value_in guarded.old)) }
    ensures room { room_in guarded.new ≡ room_in guarded.old }
{
    match guarded {
        Guarded::Checked(slabs) => {
            let _listed = slabs.listed();
            slabs.give()
        }
        _ => unreachable!(),
    }
}

/// Takes an object back, and the run of its slab where that is spare; or finds it damaged (`free_debug_processing`).
fn take_back(guarded: &mut Guarded, slot: Slot, limit: u32) -> Result<Option<FrameRun>, Damage>
    requires checked { IsCheckedValue (value_in guarded.old) }
    requires used { IsUsed (slabs_at (value_in guarded.old)) slot }
    ensures taken { let s = slabs_at (value_in guarded.old) in
        MatchResult result (λ run. (damage_of_used s slot ≡ None) × (run ≡ spare_run limit (with_taken s slot) slot.frame) × (value_in guarded.new ≡ Checked (less_spare limit (with_taken s slot) slot.frame)))
        (λ damage. (damage_of_used s slot ≡ Some damage) × (value_in guarded.new ≡ value_in guarded.old)) }
    ensures room { room_in guarded.new ≡ room_in guarded.old }
{
    match guarded {
        Guarded::Checked(slabs) => {
            slabs.take_back(slot)?;
            Ok(take_spare(slabs, slot.frame, limit))
        }
        _ => unreachable!(),
    }
}

/// Takes a slab out where it is spare.
fn take_spare(slabs: &mut CheckedSlabs, frame: u16, limit: u32) -> Option<FrameRun>
    requires { Has slabs.old frame }
    ensures run { result ≡ spare_run limit slabs.old frame }
    ensures less { slabs.new ≡ less_spare limit slabs.old frame }
{
    let objects = slabs.objects_of(frame);
    let run = slabs.take_empty(frame, limit)?;
    Some(FrameRun {
        frame,
        order: run.order,
        objects,
    })
}

/// Writes a word of a used object.
fn set_word(guarded: &mut Guarded, slot: Slot, word: u32, value: u64)
    requires checked { IsCheckedValue (value_in guarded.old) }
    requires used { IsUsed (slabs_at (value_in guarded.old)) slot }
    requires inside { 8 * (word + 1) ≤ (slabs_at (value_in guarded.old)).layout.object_size }
    ensures after { value_in guarded.new ≡ Checked (with_word (slabs_at (value_in guarded.old)) slot word value) }
    ensures room { room_in guarded.new ≡ room_in guarded.old }
{
    match guarded {
        Guarded::Checked(slabs) => slabs.set_word(slot, word, value),
        _ => unreachable!(),
    }
}

/// A word of a used object.
pub fn word(guarded: &Guarded, slot: Slot, word: u32) -> u64
    requires checked { IsCheckedValue (value_in guarded.now) }
    requires used { IsUsed (slabs_at (value_in guarded.now)) slot }
    requires inside { 8 * (word + 1) ≤ (slabs_at (value_in guarded.now)).layout.object_size }
    ensures { result ≡ word_of (slabs_at (value_in guarded.now)) slot word }
{
    match guarded {
        Guarded::Checked(slabs) => slabs.word(slot, word),
        _ => unreachable!(),
    }
}

/// Writes a byte of the slot of the call's object, where it lies there and the slab is there still.
fn poke(guarded: &mut Guarded, local: &Local) -> Reply
    requires call { IsOfKind local.now CallKind.Poke }
    requires checked { IsCheckedValue (value_in guarded.old) }
    ensures reply { result ≡ core.poked_reply local.now (slabs_at (value_in guarded.old)) }
    ensures after { value_in guarded.new ≡ Checked (core.poked local.now (slabs_at (value_in guarded.old))) }
    ensures room { room_in guarded.new ≡ room_in guarded.old }
{
    match guarded {
        Guarded::Checked(slabs) => match local.call() {
            Call::Poke { offset, byte, .. } => poke_slot(slabs, slot_of(local), offset, byte),
            _ => unreachable!(),
        },
        _ => unreachable!(),
    }
}

/// The same of the slabs.
fn poke_slot(slabs: &mut CheckedSlabs, slot: Slot, offset: i32, byte: u8) -> Reply
    ensures reply { result ≡ (if core.is_offset slabs.old.layout offset then (if nat_lt slot.index (objects_in (slab_of slabs.old slot.frame)) then Reply.Poked else Reply.NotHeld) else Reply.OutOfSlot) }
    ensures after { slabs.new ≡ (if core.is_offset slabs.old.layout offset && nat_lt slot.index (objects_in (slab_of slabs.old slot.frame)) then with_byte slabs.old slot offset byte else slabs.old) }
{
    if !is_offset(slabs, offset) {
        return Reply::OutOfSlot;
    }
    if !has_object(slabs, slot) {
        return Reply::NotHeld;
    }
    let _done = slabs.poke(slot, offset, byte);
    Reply::Poked
}

/// A byte at this offset lies in the slots of the cache.
fn is_offset(slabs: &CheckedSlabs, offset: i32) -> bool
    ensures { result ≡ core.is_offset slabs.now.layout offset }
{
    slabs.has_offset(offset)
}

/// A slab has this object.
fn has_object(slabs: &CheckedSlabs, slot: Slot) -> bool
    ensures { result ≡ nat_lt slot.index (objects_in (slab_of slabs.now slot.frame)) }
{
    slabs.state(slot).is_some()
}

/// Adds the run as a slab and gives its first object (`alloc_single_from_new_slab`), where there is memory for its
/// bytes.
pub fn add_slab(guarded: &mut Guarded, run: FrameRun) -> Result<(), NoMemory>
    requires checked { IsCheckedValue (value_in guarded.old) }
    requires new { ¬ Has (slabs_at (value_in guarded.old)) run.frame }
    requires frame { (1 ≤ run.frame) × (run.frame < 4096) }
    requires sized { IsSized (slabs_at (value_in guarded.old)).layout run.order run.objects }
    ensures added { let s = slabs_at (value_in guarded.old) in
        MatchResult result (λ _. value_in guarded.new ≡ Checked (with_given (with_new_slab s (record { frame = run.frame; order = run.order }) run.objects) (record { frame = run.frame; index = 0 })))
        (λ _. value_in guarded.new ≡ value_in guarded.old) }
    ensures room { room_in guarded.new ≡ room_in guarded.old }
{
    match guarded {
        Guarded::Checked(slabs) => {
            let frames = Run {
                frame: u32::from(run.frame),
                order: run.order,
            };
            slabs.give_new(frames, u32::from(run.objects))?;
            Ok(())
        }
        _ => unreachable!(),
    }
}

/// Gives an object of a cache (`alloc_single_from_partial`).
pub fn give_in(values: &mut [Guarded], cache: u8) -> CheckedGive
    requires { IsCheckedValue (values_of values.old (node_lock cache)) }
    ensures after { values_of values.new ≡ update (values_of values.old) (node_lock cache) (Checked (slabs_at (values_of values.new (node_lock cache)))) }
    ensures gives { Gives (slabs_at (values_of values.old (node_lock cache))) result (slabs_at (values_of values.new (node_lock cache))) }
    ensures sound { IsSound (slabs_at (values_of values.old (node_lock cache))) }
    ensures rooms { rooms_of values.new ≡ rooms_of values.old }
{
    give(&mut values[usize::from(cache) + 1])
}

/// Takes an object of a cache back, and the run of its slab where that is spare; or finds it damaged.
pub fn take_back_in(
    values: &mut [Guarded],
    cache: u8,
    slot: Slot,
    limit: u32,
) -> Result<Option<FrameRun>, Damage>
    requires checked { IsCheckedValue (values_of values.old (node_lock cache)) }
    requires used { IsUsed (slabs_at (values_of values.old (node_lock cache))) slot }
    ensures taken { let s = slabs_at (values_of values.old (node_lock cache)) in
        MatchResult result (λ run. (damage_of_used s slot ≡ None) × (run ≡ spare_run limit (with_taken s slot) slot.frame) × (values_of values.new ≡ update (values_of values.old) (node_lock cache) (Checked (less_spare limit (with_taken s slot) slot.frame))))
        (λ damage. (damage_of_used s slot ≡ Some damage) × (values_of values.new ≡ values_of values.old)) }
    ensures rooms { rooms_of values.new ≡ rooms_of values.old }
{
    take_back(&mut values[usize::from(cache) + 1], slot, limit)
}

/// Writes a word of a used object of a cache.
pub fn set_word_in(values: &mut [Guarded], cache: u8, slot: Slot, word: u32, value: u64)
    requires checked { IsCheckedValue (values_of values.old (node_lock cache)) }
    requires used { IsUsed (slabs_at (values_of values.old (node_lock cache))) slot }
    requires inside { 8 * (word + 1) ≤ (slabs_at (values_of values.old (node_lock cache))).layout.object_size }
    ensures after { values_of values.new ≡ update (values_of values.old) (node_lock cache) (Checked (with_word (slabs_at (values_of values.old (node_lock cache))) slot word value)) }
    ensures rooms { rooms_of values.new ≡ rooms_of values.old }
{
    set_word(&mut values[usize::from(cache) + 1], slot, word, value);
}

/// Writes a byte of the slot of the call's object, where it lies there and the slab is there still.
pub fn poke_in(values: &mut [Guarded], cache: u8, local: &Local) -> Reply
    requires call { IsOfKind local.now CallKind.Poke }
    requires checked { IsCheckedValue (values_of values.old (node_lock cache)) }
    ensures reply { result ≡ core.poked_reply local.now (slabs_at (values_of values.old (node_lock cache))) }
    ensures after { values_of values.new ≡ update (values_of values.old) (node_lock cache) (Checked (core.poked local.now (slabs_at (values_of values.old (node_lock cache))))) }
    ensures rooms { rooms_of values.new ≡ rooms_of values.old }
{
    poke(&mut values[usize::from(cache) + 1], local)
}
