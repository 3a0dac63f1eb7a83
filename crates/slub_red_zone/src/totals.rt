//! How many objects and slabs a cache has.

/// The numbers of a cache's objects and slabs.
#[derive(Clone, Copy, Debug, PartialEq, Eq)]
pub(crate) struct Totals {
    pub(crate) free: u32,
    pub(crate) used: u32,
    pub(crate) aside: u32,
    pub(crate) slabs: u32,
}
