//! Who is told how far a run is.

/// Who is told how far a run is. No clause says what becomes of that.
pub trait Progress {
    /// So many of all seeds are done.
    fn done(&mut self, seeds: u32, all: u32);
}

/// Tells nobody.
#[derive(Clone, Copy, Debug, Default, PartialEq, Eq)]
pub struct Silent;

impl Progress for Silent {
    fn done(&mut self, _seeds: u32, _all: u32) {}
}
