//! A name that names no cache.

/// The name isn't live.
#[derive(Clone, Copy, Debug, PartialEq, Eq)]
pub struct NoSuchCache;
