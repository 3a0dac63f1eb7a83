//! Where an object stands.

/// An object of a cache, by its slab's first frame and its index there.
#[derive(Clone, Copy, Debug, PartialEq, Eq)]
pub struct Object {
    pub cache: u8,
    pub frame: u16,
    pub index: u16,
}
