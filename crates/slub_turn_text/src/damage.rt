//! What was found damaged.

ghost use Rattle.std.specs.Prelude.{◌≡◌, ◌++◌, OnOk};
ghost use Rattle.slub_slabinfo_text.specs.Texts.{damage_words, zone_text};

use crate::columns::{push_hex, push_signed, push_words};
use slub_common::no_memory::NoMemory;
use slub_trace::damage::{Damage, Zone};

fn zone_text(zone: Zone) -> &'static [u8]
    ensures { result.now ≡ zone_text zone }
{
    match zone {
        Zone::Left => b"left",
        Zone::Right => b"right",
        Zone::Poison => b"poison",
        Zone::End => b"end",
        Zone::Padding => b"padding",
    }
}

/// The zone, where the byte is from the object's address, the byte and the wanted one.
pub(crate) fn push_damage(text: &mut Vec<u8>, damage: &Damage) -> Result<(), NoMemory>
    ensures { OnOk result (text.new.items ≡ text.old.items ++ damage_words damage.now) }
{
    push_words(text, zone_text(damage.zone))?;
    push_words(text, b" offset ")?;
    push_signed(text, damage.offset)?;
    push_words(text, b" found ")?;
    push_hex(text, damage.found)?;
    push_words(text, b" wanted ")?;
    push_hex(text, damage.wanted)
}
