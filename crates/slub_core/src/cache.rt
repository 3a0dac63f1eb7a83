//! What a step asks of a cache.

use slub_object_layout::layout::Layout;

/// A cache of the machine, or the room for one.
#[derive(Clone, Copy, Debug, PartialEq, Eq)]
pub struct CacheFacts {
    pub live: bool,
    /// F, Z or P is set.
    pub checks: bool,
    /// As last tuned.
    pub layout: Layout,
}
