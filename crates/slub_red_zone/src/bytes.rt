//! Single bytes and words of a checked slab.

ghost use Rattle.std.specs.Prelude.{◌≡◌, ◌+◌, ◌*◌, ◌<◌, ◌≤◌, ◌↔◌, MatchOption, IfSome, IsTrue, pos};
ghost use Rattle.slub_object_layout.specs.Layout.{IsWithinBounds};
ghost use Rattle.slub_red_zone.specs.State.{IsUsed, slab_of, objects_in};
ghost use Rattle.slub_red_zone.specs.Sound.{IsSound};
ghost use Rattle.slub_red_zone.specs.Steps as step;
ghost use Rattle.slub_red_zone.specs.Objects.{KeepsObjects};

use crate::checked::{CheckedSlabs, OutOfSlot, Slot};
use crate::slabs;
use slub_object_layout::layout::Layout;

impl CheckedSlabs {
    /// Writes one byte of an object's slot, whatever the object is (*profile*); `offset` counts in bytes from the
    /// object's address. OutOfSlot comes exactly where it is below `-left_pad` or at least
    /// `size - left_pad`, and nothing changes.
    pub fn poke(&mut self, slot: Slot, offset: i32, byte: u8) -> Result<(), OutOfSlot>
        requires object { slot.index < objects_in (slab_of self.old slot.frame) }
        ensures pokes { step.Pokes self.old slot offset byte result self.new }
        ensures objects { KeepsObjects self.old self.new }
        ensures sound { IsSound self.new }
    {
        let Some(place) = place_of(&self.layout, offset) else {
            return Err(OutOfSlot);
        };
        let at = slot.index as usize * self.layout.size as usize + place;
        slabs::set_byte(&mut self.slabs, slot.frame, at, byte);
        Ok(())
    }

    /// Whether a byte at this offset from an object's address lies in the object's slot: `poke` writes
    /// there.
    pub fn has_offset(&self, offset: i32) -> bool
        ensures offset { IsTrue result ↔ step.IsOffset self.now.layout offset }
        ensures sound { IsSound self.now }
    {
        place_of(&self.layout, offset).is_some()
    }

    /// Word number `word` of a used object: its eight bytes, little endian (*profile*).
    pub fn word(&self, slot: Slot, word: u32) -> u64
        requires used { IsUsed self.now slot }
        requires inside { 8 * (word + 1) ≤ self.now.layout.object_size }
        ensures word { result ≡ step.word_of self.now slot word }
        ensures sound { IsSound self.now }
    {
        slabs::word(
            &self.slabs,
            slot.frame,
            word_place(&self.layout, slot.index, word),
        )
    }

    /// Writes word number `word` of a used object, little endian (*profile*).
    pub fn set_word(&mut self, slot: Slot, word: u32, value: u64)
        requires used { IsUsed self.old slot }
        requires inside { 8 * (word + 1) ≤ self.old.layout.object_size }
        ensures written { self.new ≡ step.with_word self.old slot word value }
        ensures objects { KeepsObjects self.old self.new }
        ensures sound { IsSound self.new }
    {
        let at = word_place(&self.layout, slot.index, word);
        slabs::set_word(&mut self.slabs, slot.frame, at, value);
    }
}

/// The place in its slot of the byte at this offset from the object's address, if it lies there.
fn place_of(layout: &Layout, offset: i32) -> Option<usize>
    requires { IsWithinBounds layout.now }
    ensures place { MatchOption result (¬ step.IsOffset layout.now offset) (λ place. step.IsOffset layout.now offset × (pos place ≡ step.place_of layout.now offset)) }
    ensures inside { IfSome result (λ place. place < layout.now.size) }
{
    let left_pad = layout.left_pad as i32;
    if offset < -left_pad || offset >= layout.size as i32 - left_pad {
        return None;
    }
    Some((left_pad + offset) as usize)
}

/// Where a word of an object begins among the bytes of its slab.
fn word_place(layout: &Layout, index: u16, word: u32) -> usize
    requires bounds { IsWithinBounds layout.now }
    requires inside { 8 * (word + 1) ≤ layout.now.object_size }
    ensures { result ≡ step.word_place layout.now index word }
{
    index as usize * layout.size as usize + layout.left_pad as usize + 8 * word as usize
}
