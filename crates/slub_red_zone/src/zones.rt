//! The checked bytes of a slot: the first that is damaged, and setting an object up.

ghost use Rattle.std.specs.Prelude.{◌≡◌, ◌==◌, ◌+◌, ◌<◌, ◌≤◌, not, length, position, IfSome};
ghost use Rattle.std.specs.List.{list_all};
ghost use Rattle.slub_object_layout.specs.Layout.{IsWithinBounds};
ghost use Rattle.slub_red_zone.specs.Zones as spec;

use slub_object_layout::layout::{Flags, Layout};
use slub_trace::damage::{Damage, Zone};

/// In the red zones of a free object (`SLUB_RED_INACTIVE`).
pub const RED_INACTIVE: u8 = 0xbb;

/// In the red zones of a used object (`SLUB_RED_ACTIVE`).
pub const RED_ACTIVE: u8 = 0xcc;

/// In the padding (`POISON_INUSE`).
pub const PADDING: u8 = 0x5a;

/// In a free object (`POISON_FREE`).
pub const POISON: u8 = 0x6b;

/// The last byte of a free object (`POISON_END`).
pub const POISON_END: u8 = 0xa5;

/// The bytes of a free pointer.
const POINTER: u32 = 8;

/// A part of a slot: the bytes at the places from `from` up to `to`, counted from the slot's first
/// byte, and what each of them has to be.
#[derive(Clone, Copy, Debug, PartialEq, Eq)]
pub struct Part {
    pub zone: Zone,
    pub from: u32,
    pub to: u32,
    pub wanted: u8,
}

/// The first damage for which a free object can't be given, where F is set
/// (`alloc_debug_processing`, `check_object`).
pub(crate) fn damage_when_given(layout: &Layout, flags: &Flags, slot: &[u8]) -> Option<Damage>
    requires bounds { IsWithinBounds layout.now }
    requires slot { length slot.now ≡ layout.now.size }
    ensures { result ≡ spec.damage_when_given layout.now flags.now slot.now }
{
    if !flags.checks {
        return None;
    }
    if let Some(damage) = damage_in_zones(layout, flags, slot, RED_INACTIVE) {
        return Some(damage);
    }
    if let Some(damage) = damage_in_poison(layout, flags, slot) {
        return Some(damage);
    }
    damage_in_padding(layout, flags, slot)
}

/// The first damage for which a used object can't be taken back, where F is set
/// (`free_debug_processing`, `check_object`).
pub(crate) fn damage_when_taken(layout: &Layout, flags: &Flags, slot: &[u8]) -> Option<Damage>
    requires bounds { IsWithinBounds layout.now }
    requires slot { length slot.now ≡ layout.now.size }
    ensures { result ≡ spec.damage_when_taken layout.now flags.now slot.now }
{
    if !flags.checks {
        return None;
    }
    if let Some(damage) = damage_in_zones(layout, flags, slot, RED_ACTIVE) {
        return Some(damage);
    }
    damage_in_padding(layout, flags, slot)
}

/// The first damage in the red zones, which are to hold this byte.
fn damage_in_zones(layout: &Layout, flags: &Flags, slot: &[u8], byte: u8) -> Option<Damage>
    requires bounds { IsWithinBounds layout.now }
    requires slot { length slot.now ≡ layout.now.size }
    ensures { result ≡ spec.first_damage layout.now slot.now (spec.red_zones layout.now flags.now byte) }
{
    if !flags.zones {
        return None;
    }
    if let Some(damage) = damage_in(layout, slot, left_zone(layout, byte)) {
        return Some(damage);
    }
    damage_in(layout, slot, right_zone(layout, byte))
}

/// The first damage in the poison.
fn damage_in_poison(layout: &Layout, flags: &Flags, slot: &[u8]) -> Option<Damage>
    requires bounds { IsWithinBounds layout.now }
    requires slot { length slot.now ≡ layout.now.size }
    ensures { result ≡ spec.first_damage layout.now slot.now (spec.poison layout.now flags.now) }
{
    if !flags.poison {
        return None;
    }
    if let Some(damage) = damage_in(layout, slot, poison(layout)) {
        return Some(damage);
    }
    damage_in(layout, slot, poison_end(layout))
}

/// The first damage in the padding (`check_pad_bytes`).
fn damage_in_padding(layout: &Layout, flags: &Flags, slot: &[u8]) -> Option<Damage>
    requires bounds { IsWithinBounds layout.now }
    requires slot { length slot.now ≡ layout.now.size }
    ensures { result ≡ spec.first_damage layout.now slot.now (spec.padding layout.now flags.now) }
{
    if !flags.poison {
        return None;
    }
    damage_in(layout, slot, padding(layout))
}

/// The first byte of a part that isn't what it has to be (`check_bytes_and_report`).
fn damage_in(layout: &Layout, slot: &[u8], part: Part) -> Option<Damage>
    requires bounds { IsWithinBounds layout.now }
    requires slot { length slot.now ≡ layout.now.size }
    requires rising { part.from ≤ part.to }
    requires inside { part.to ≤ layout.now.size }
    ensures { result ≡ spec.damage_in layout.now slot.now part }
{
    let from = part.from as usize;
    let at = first_other(&slot[from..part.to as usize], part.wanted)?;
    Some(Damage {
        zone: part.zone,
        offset: (from + at) as i32 - layout.left_pad as i32,
        found: slot[from + at],
        wanted: part.wanted,
    })
}

/// The place of the first byte that is another than this one.
fn first_other(bytes: &[u8], wanted: u8) -> Option<usize>
    ensures first { result ≡ position (λ byte. not (byte == wanted)) bytes.now }
    ensures inside { IfSome result (λ at. at < length bytes.now) }
{
    if are_all(bytes, wanted) {
        return None;
    }
    bytes.iter().position(|byte| *byte != wanted)
}

/// Whether every byte is this one. It looks at each, many at a time.
fn are_all(bytes: &[u8], wanted: u8) -> bool
    ensures { result ≡ list_all (λ byte. byte == wanted) bytes.now }
{
    let mut same = true;
    for byte in bytes {
        same = same & (*byte == wanted);
    }
    same
}

/// Sets an object up with this byte in its red zones; every other byte of its slot stays
/// (`init_object`).
#[tactic(auto, unfolding(crate::specs::Zones::set_up))]
pub(crate) fn set_up(layout: &Layout, flags: &Flags, byte: u8, slot: &mut [u8])
    requires bounds { IsWithinBounds layout.now }
    requires slot { length slot.old ≡ layout.now.size }
    ensures { slot.new ≡ spec.set_up layout.now flags.now byte slot.old }
{
    if flags.zones {
        fill(slot, left_zone(layout, byte));
        fill(slot, right_zone(layout, byte));
    }
    if flags.poison {
        fill(slot, poison(layout));
        fill(slot, poison_end(layout));
    }
}

/// Writes a part's byte to each of its places.
fn fill(slot: &mut [u8], part: Part)
    requires rising { part.from ≤ part.to }
    requires inside { part.to ≤ length slot.old }
    ensures { slot.new ≡ spec.with_part slot.old part }
{
    slot[part.from as usize..part.to as usize].fill(part.wanted);
}

/// The byte that a new slab is filled with (*profile*: 0 where P isn't set).
pub(crate) fn fill_byte(flags: &Flags) -> u8
    ensures { result ≡ spec.fill_byte flags.now }
{
    if flags.poison { PADDING } else { 0 }
}

/// The red zone before the object.
fn left_zone(layout: &Layout, byte: u8) -> Part
    ensures { result ≡ spec.left_zone layout.now byte }
{
    Part {
        zone: Zone::Left,
        from: 0,
        to: layout.left_pad,
        wanted: byte,
    }
}

/// The red zone behind the object.
fn right_zone(layout: &Layout, byte: u8) -> Part
    requires bounds { IsWithinBounds layout.now }
    ensures { result ≡ spec.right_zone layout.now byte }
{
    Part {
        zone: Zone::Right,
        from: layout.left_pad + layout.object_size,
        to: layout.left_pad + layout.inuse,
        wanted: byte,
    }
}

/// The bytes of a free object but the last.
fn poison(layout: &Layout) -> Part
    requires bounds { IsWithinBounds layout.now }
    ensures { result ≡ spec.poison_but_end layout.now }
{
    Part {
        zone: Zone::Poison,
        from: layout.left_pad,
        to: layout.left_pad + layout.object_size - 1,
        wanted: POISON,
    }
}

/// The last byte of a free object.
fn poison_end(layout: &Layout) -> Part
    requires bounds { IsWithinBounds layout.now }
    ensures { result ≡ spec.poison_last layout.now }
{
    Part {
        zone: Zone::End,
        from: layout.left_pad + layout.object_size - 1,
        to: layout.left_pad + layout.object_size,
        wanted: POISON_END,
    }
}

/// What is left of the slot behind the free pointer.
fn padding(layout: &Layout) -> Part
    requires bounds { IsWithinBounds layout.now }
    ensures { result ≡ spec.padding_part layout.now }
{
    Part {
        zone: Zone::Padding,
        from: layout.left_pad + layout.offset + POINTER,
        to: layout.size,
        wanted: PADDING,
    }
}
