//! What the setting of a cache's numbers answers (`min_partial_store`, `cpu_partial_store`).

/// Why a cache wasn't tuned.
#[derive(Clone, Copy, Debug, PartialEq, Eq)]
pub enum TuneRefusal {
    /// The name isn't live.
    NoSuchCache,
    /// The cache is checked: it has no CPU partial lists.
    Checked,
}
