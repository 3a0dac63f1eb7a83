//! What follows from the clauses, for the crates above. None of these does anything.

ghost use Rattle.std.specs.Prelude.{◌≡◌, ◌+◌, ◌<◌, ◌≤◌};
ghost use Rattle.slub_words.specs.Words.{cpu_bits, slab_bits, board_bits, freelist_ptr, IsSpent};

use crate::board::BoardWord;
use crate::cpu::CpuWord;
use crate::free::FreePtr;
use crate::slab::SlabWord;

/// CPU words that are one number have equal fields.
pub fn cpu_word_has_fields(one: CpuWord, other: CpuWord)
    requires { cpu_bits one ≡ cpu_bits other }
    ensures { one ≡ other }
{}

/// Slab words that are one number have equal fields.
pub fn slab_word_has_fields(one: SlabWord, other: SlabWord)
    requires { slab_bits one ≡ slab_bits other }
    ensures { one ≡ other }
{}

/// Board words that are one number have equal fields.
pub fn board_word_has_fields(one: BoardWord, other: BoardWord)
    requires one_fits { one.index < 65535 }
    requires other_fits { other.index < 65535 }
    requires same { board_bits one ≡ board_bits other }
    ensures { one ≡ other }
{}

/// A hardened pointer comes back under the same random number and place.
pub fn pointer_comes_back(pointer: u64, random: u64, place: u32)
    ensures { freelist_ptr (freelist_ptr pointer random place) random place ≡ pointer }
{}

/// A word that is not spent has room for its step and for one more.
pub fn unspent_has_room(tid: u32, step: u32)
    requires few { step ≤ 16 }
    requires unspent { ¬ IsSpent tid step }
    ensures { tid + step + step ≤ 4294967295 }
{}
