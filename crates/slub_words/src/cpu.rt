//! The word of a cache and a CPU.

ghost use Rattle.std.specs.Prelude.{◌≡◌, ◌+◌, ◌-◌, ◌*◌, ◌<◌, ◌≤◌, ◌↔◌, IfSome, IsTrue, SomeIff};
ghost use Rattle.slub_words.specs.Words.{cpu_bits, IsSpent};

use crate::parts::{join, part};

/// The current slab of a CPU and the head of its freelist (`struct kmem_cache_cpu`).
#[derive(Clone, Copy, Debug, PartialEq, Eq)]
pub struct CpuWord {
    /// The transaction id, which each change raises by one step.
    pub tid: u32,
    /// The first frame of the current slab; 0 for none.
    pub frame: u16,
    /// The index plus one of the first object of the CPU freelist; 0 for none.
    pub head: u16,
}

impl CpuWord {
    /// The word of these fields.
    pub fn pack(self) -> u64
        ensures { result ≡ cpu_bits self }
    {
        join(join(u64::from(self.tid), self.frame), self.head)
    }

    /// The fields of a word; each word has some.
    pub fn unpack(word: u64) -> CpuWord
        ensures { cpu_bits result ≡ word }
    {
        CpuWord {
            tid: (word >> 32) as u32,
            frame: part(word, 16),
            head: part(word, 0),
        }
    }
}

/// The tid after one step (`next_tid`); None where tids end before it (*profile*).
pub fn next_tid(tid: u32, step: u32) -> Option<u32>
    ensures sum { SomeIff result (tid + step ≤ 4294967295) (tid + step) }
    ensures later { 1 ≤ step → IfSome result (λ next. tid < next) }
{
    tid.checked_add(step)
}

/// Whether pop, push and install have to leave a word of this tid alone, so that a detach still has its step
/// (*profile*). The step is 1 to 16.
pub fn spent(tid: u32, step: u32) -> bool
    requires some { 1 ≤ step }
    requires few { step ≤ 16 }
    ensures { IsTrue result ↔ IsSpent tid step }
{
    tid > u32::MAX - 2 * step
}
