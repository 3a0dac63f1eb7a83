//! The word of a free object: its free pointer.

ghost use Rattle.std.specs.Prelude.{◌≡◌, ◌+◌, ◌%◌, ◌^◌, ◌<◌, ◌↔◌, IsTrue};
ghost use Rattle.slub_words.specs.Words.{freelist_ptr, IsWhole, steps_from_one};

/// The next of a free object (`get_freepointer`, `set_freepointer`, with `CONFIG_SLAB_FREELIST_HARDENED`).
#[derive(Clone, Copy, Debug, PartialEq, Eq)]
pub struct FreePtr {
    /// The index plus one of the next free object; 0 for none.
    pub next: u16,
}

impl FreePtr {
    /// The word at this place of memory, in bytes, of a cache with this random number.
    pub fn pack(self, random: u64, place: u32) -> u64
        ensures bits { result ≡ freelist_ptr self.next random place }
        ensures whole { IsWhole result random place }
    {
        freelist_ptr(u64::from(self.next), random, place)
    }

    /// The pointer of a word; any number where the word is not whole.
    pub fn unpack(word: u64, random: u64, place: u32) -> FreePtr
        ensures low { result.next ≡ freelist_ptr word random place % 2 ^ 16 }
        ensures again { IsWhole word random place → freelist_ptr result.next random place ≡ word }
    {
        FreePtr {
            next: (freelist_ptr(word, random, place) & 0xffff) as u16,
        }
    }

    /// Whether a word is a stored pointer, and not what a stale read may find.
    pub fn whole(word: u64, random: u64, place: u32) -> bool
        ensures { IsTrue result ↔ IsWhole word random place }
    {
        freelist_ptr(word, random, place) <= 0xffff
    }
}

/// A pointer made hard, or plain again (`freelist_ptr`).
fn freelist_ptr(pointer: u64, random: u64, place: u32) -> u64
    ensures { result ≡ freelist_ptr pointer random place }
{
    pointer ^ random ^ u64::from(place).swap_bytes()
}

/// The random number of a cache, whose number is below 32 (profile; the kernel draws it at creation).
pub fn random(cache: u8) -> u64
    requires { cache < 32 }
    ensures { result ≡ steps_from_one (cache + 1) }
{
    let mut x: u64 = 1;
    for _ in 0..cache + 1 {
        x = x
            .wrapping_mul(6364136223846793005)
            .wrapping_add(1442695040888963407);
    }
    x
}
