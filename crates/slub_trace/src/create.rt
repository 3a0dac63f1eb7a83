//! What the creation of a cache answers (`kmem_cache_create`).

use slub_object_layout::layout::LayoutRefusal;
use slub_object_layout::name::Name;

/// What a creation did, with the number of the cache that the name names now, 0 to 31.
#[derive(Clone, Copy, Debug)]
pub enum Created {
    /// It made a cache.
    New(u8),
    /// It gave the live cache of this title one more name.
    Merged { cache: u8, title: Name },
}

/// Why no cache was created. The causes are tried in this order.
#[derive(Clone, Copy, Debug, PartialEq, Eq)]
pub enum CreateRefusal {
    /// The name is live, or a live cache was made under it.
    NameTaken,
    /// 32 names are live.
    TooMany,
    /// There is no layout for such a cache.
    Layout(LayoutRefusal),
}
