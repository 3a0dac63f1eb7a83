//! The events of a recording.

ghost use Rattle.std.specs.Prelude.{◌≡◌};
ghost use Rattle.slub_recording.specs.Texts.{kind_text, key_text};

/// The four tracepoints of `include/trace/events/kmem.h` that a recording is read for.
#[derive(Clone, Copy, Debug, PartialEq, Eq)]
pub enum KmemKind {
    /// `kmem_cache_alloc`
    CacheAlloc,
    /// `kmalloc`
    Kmalloc,
    /// `kmem_cache_free`
    CacheFree,
    /// `kfree`
    Kfree,
}

impl KmemKind {
    /// The name of the tracepoint.
    pub fn text(&self) -> &'static [u8]
        ensures { result.now ≡ kind_text self.now }
    {
        match self {
            KmemKind::CacheAlloc => b"kmem_cache_alloc",
            KmemKind::Kmalloc => b"kmalloc",
            KmemKind::CacheFree => b"kmem_cache_free",
            KmemKind::Kfree => b"kfree",
        }
    }
}

/// The values of an event that are read.
#[derive(Clone, Copy, Debug, PartialEq, Eq)]
pub enum Key {
    /// `call_site`
    CallSite,
    /// `ptr`
    Ptr,
    /// `bytes_req`
    BytesReq,
    /// `bytes_alloc`
    BytesAlloc,
    /// `gfp_flags`
    GfpFlags,
    /// `accounted`
    Accounted,
    /// `name`
    Name,
}

impl Key {
    /// The word in front of `=`.
    pub fn text(&self) -> &'static [u8]
        ensures { result.now ≡ key_text self.now }
    {
        match self {
            Key::CallSite => b"call_site",
            Key::Ptr => b"ptr",
            Key::BytesReq => b"bytes_req",
            Key::BytesAlloc => b"bytes_alloc",
            Key::GfpFlags => b"gfp_flags",
            Key::Accounted => b"accounted",
            Key::Name => b"name",
        }
    }
}

/// Which row of `kmalloc_caches` served a `kmalloc` (`kmalloc_type`).
#[derive(Clone, Copy, Debug, PartialEq, Eq)]
pub enum KmallocKind {
    /// `kmalloc-`
    Normal,
    /// `kmalloc-cg-`
    Accounted,
    /// `kmalloc-rcl-`
    Reclaimable,
    /// `dma-kmalloc-`
    Dma,
}

/// What an event did. Sizes are in bytes.
#[derive(Clone, Copy, Debug, PartialEq, Eq)]
pub enum KmemAct {
    /// `kmem_cache_alloc`: the size of the cache's objects, that of its slots, and the place of the
    /// call site among the sites of the recording.
    CacheAlloc { asked: u32, slot: u32, site: u32 },
    /// `kmalloc`: the size of the slot.
    Kmalloc { slot: u32, kind: KmallocKind },
    /// `kmem_cache_free`: the place of the cache's name among the names of the recording; None
    /// where the name is printed empty.
    CacheFree { name: Option<u32> },
    /// `kfree`
    Kfree,
}

/// An event of one of the four kinds.
#[derive(Clone, Copy, Debug, PartialEq, Eq)]
pub struct KmemEvent {
    /// The pointer as printed, real or hashed; 0 is nothing.
    pub pointer: u64,
    /// The CPU that it happened on.
    pub cpu: u32,
    pub act: KmemAct,
}
