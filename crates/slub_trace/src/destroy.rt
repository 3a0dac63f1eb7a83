//! What the destruction of a name answers (`kmem_cache_destroy`).

/// What the end of a name did.
#[derive(Clone, Copy, Debug, PartialEq, Eq)]
pub enum Destroyed {
    /// The cache has other names, and lives on.
    NameDropped,
    /// It was the cache's last name: every frame of the cache is free, and it is live no more.
    Gone,
}

/// Why a name wasn't destroyed.
#[derive(Clone, Copy, Debug, PartialEq, Eq)]
pub enum DestroyRefusal {
    /// The name isn't live.
    NoSuchCache,
    /// It is the cache's last name, and so many objects are held, on the board or set aside.
    Busy(u32),
}
