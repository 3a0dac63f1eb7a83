//! What slabinfo says of a cache.

use slub_object_layout::name::Name;

/// The counts of a cache (`struct slabinfo`).
#[derive(Clone, Copy, Debug, PartialEq, Eq)]
pub struct Counts {
    /// The objects less the free ones of slabs on the node list: objects on a CPU's freelist or in
    /// a slab on a CPU's partial list count as active.
    pub active_objs: u64,
    /// The objects of all slabs of the cache, given and free.
    pub num_objs: u64,
    /// The size of a slot, in bytes.
    pub objsize: u32,
    /// The objects of a slab of the cache's own order.
    pub objperslab: u32,
    /// The page frames of such a slab.
    pub pagesperslab: u32,
    /// The slabs of the cache.
    pub num_slabs: u64,
    /// The objects given and not freed.
    pub live: u64,
    /// The free objects, wherever they stand.
    pub free: u64,
    /// The objects set aside as damaged.
    pub aside: u64,
    /// The frozen slabs.
    pub frozen: u64,
}

/// A row of slabinfo.
#[derive(Debug, Drop)]
pub struct InfoRow {
    pub title: Name,
    pub counts: Counts,
}
