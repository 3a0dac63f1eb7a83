//! What stays while a round runs.

ghost use Rattle.std.specs.Prelude.{◌≡◌, ◌+◌, ◌^◌, ◌<◌, ◌≤◌, IfOk};
ghost use Rattle.slub_object_layout.specs.Layout.{address_of};
ghost use Rattle.slub_words.specs.Words.{steps_from_one};
ghost use Rattle.slub_core.specs.Setup.{hardened};
ghost use Rattle.slub_core.specs.Facts.{Facts, AreFacts, IsSmall, cache_of, pointer_in, word_in, found_in};

use crate::cache::CacheFacts;
use slub_common::no_memory::NoMemory;
use slub_object_layout::layout::Layout;
use slub_words::free::{self, FreePtr};
use std::alloc::Global;
use std::marker::Model;

/// The layout of no cache.
pub const NO_LAYOUT: Layout = Layout {
    object_size: 0,
    inuse: 0,
    offset: 0,
    left_pad: 0,
    size: 0,
    align: 0,
    order: 0,
    objects: 0,
    min_order: 0,
    min_objects_slab: 0,
    min_partial: 0,
    cpu_partial_slabs: 0,
};

/// The sizes of the machine and its caches, while a round runs.
#[derive(Debug, Drop)]
pub struct Setup {
    /// Frame 0 counts.
    frames: u32,
    cpus: u32,
    /// What each change adds to a transaction id.
    step: u32,
    /// Object numbers are below this one; 0 is none.
    objects: u32,
    /// The live caches that aren't checked, oldest first.
    plain: Vec<u8>,
    /// By number.
    caches: Vec<CacheFacts>,
    /// The random numbers of the first caches.
    randoms: Vec<u64>,
}

impl Model for Setup {
    ghost use Rattle.slub_core.specs.Facts.{Facts, AreFacts, AreRandoms};

    ghost Value = { Facts };

    ghost view = { λ s. record { frames = s.frames; cpus = s.cpus; step = s.step; objects = s.objects; plain = s.plain.items; caches = s.caches.items } };

    ghost invariant = { λ s. AreFacts (record { frames = s.frames; cpus = s.cpus; step = s.step; objects = s.objects; plain = s.plain.items; caches = s.caches.items }) × AreRandoms s.randoms.items };
}

impl Setup {
    /// The machine of these sizes and caches. No later call takes memory.
    pub fn open(
        alloc: Global,
        frames: u32,
        cpus: u32,
        step: u32,
        objects: u32,
        plain: Vec<u8>,
        caches: Vec<CacheFacts>,
    ) -> Result<Setup, NoMemory>
        requires { AreFacts (record { frames = frames; cpus = cpus; step = step; objects = objects; plain = plain.items; caches = caches.items }) }
        ensures { IfOk result (λ s. s ≡ record { frames = frames; cpus = cpus; step = step; objects = objects; plain = plain.items; caches = caches.items }) }
    {
        let mut randoms = Vec::with_capacity(alloc, 32)?;
        for cache in 0..32 {
            randoms.push(free::random(cache))?;
        }
        Ok(Setup {
            frames,
            cpus,
            step,
            objects,
            plain,
            caches,
            randoms,
        })
    }

    /// What each change adds to a transaction id.
    #[inline(always)]
    pub fn step(&self) -> u32
        ensures step { result ≡ self.now.step }
        ensures few { result ≤ 16 }
    {
        self.step
    }

    /// How many CPUs there are.
    #[inline(always)]
    pub fn cpus(&self) -> u32
        ensures cpus { result ≡ self.now.cpus }
        ensures few { result ≤ 16 }
    {
        self.cpus
    }

    /// The live caches that aren't checked, oldest first.
    pub fn plain(&self) -> &[u8]
        ensures { result.now ≡ self.now.plain }
    {
        self.plain.as_slice()
    }

    /// The layout of a cache.
    #[inline(always)]
    pub fn layout(&self, cache: u8) -> Layout
        ensures layout { result ≡ (cache_of self.now cache).layout }
        ensures small { IsSmall result }
    {
        match self.caches.get(usize::from(cache)) {
            Some(facts) => facts.layout,
            None => NO_LAYOUT,
        }
    }

    /// Whether a cache is checked.
    #[inline(always)]
    pub fn checks(&self, cache: u8) -> bool
        ensures { result ≡ (cache_of self.now cache).checks }
    {
        match self.caches.get(usize::from(cache)) {
            Some(facts) => facts.checks,
            None => false,
        }
    }

    /// The random number of a cache, with which its free pointers are hardened.
    #[inline(always)]
    fn random(&self, cache: u8) -> u64
        ensures { result ≡ steps_from_one (cache + 1) }
    {
        match self.randoms.get(usize::from(cache)) {
            Some(random) => *random,
            None => drawn(u16::from(cache) + 1),
        }
    }

    /// The address of an object, in bytes.
    #[inline(always)]
    pub fn address(&self, cache: u8, frame: u16, index: u16) -> u32
        ensures address { result ≡ address_of frame index (cache_of self.now cache).layout }
        ensures below { result < 2 ^ 31 }
    {
        let layout = self.layout(cache);
        u32::from(frame) * 4096 + u32::from(index) * layout.size + layout.left_pad
    }

    /// The memory word of an object's free pointer.
    #[inline(always)]
    pub fn pointer_at(&self, cache: u8, frame: u16, index: u16) -> u32
        ensures place { result ≡ pointer_in self.now cache frame index }
        ensures below { result < 2 ^ 29 }
    {
        (self.address(cache, frame, index) + self.layout(cache).offset) / 8
    }

    /// One of an object's own words, of which the first is 0 and the last one 4095 at most (profile).
    #[inline(always)]
    pub fn word_at(&self, cache: u8, frame: u16, index: u16, word: u32) -> u32
        requires { word ≤ 4095 }
        ensures { result ≡ word_in self.now cache frame index word }
    {
        self.address(cache, frame, index) / 8 + word
    }

    /// A free pointer as it is stored at a memory word (`freelist_ptr`).
    #[inline(always)]
    pub fn hardened(&self, cache: u8, place: u32, pointer: u16) -> u64
        requires { place < 2 ^ 29 }
        ensures { result ≡ hardened cache place pointer }
    {
        FreePtr { next: pointer }.pack(self.random(cache), 8 * place)
    }

    /// What was loaded of an object's free pointer.
    #[inline(always)]
    pub fn found_at(&self, cache: u8, frame: u16, index: u16, word: u64) -> u16
        ensures { result ≡ found_in self.now cache frame index word }
    {
        let place = self.pointer_at(cache, frame, index);
        FreePtr::unpack(word, self.random(cache), 8 * place).next
    }
}

/// The number after this many steps of the generator from 1.
fn drawn(steps: u16) -> u64
    ensures { result ≡ steps_from_one steps }
{
    let mut x: u64 = 1;
    for _ in 0..steps {
        x = x
            .wrapping_mul(6364136223846793005)
            .wrapping_add(1442695040888963407);
    }
    x
}
