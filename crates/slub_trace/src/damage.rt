//! Bytes that are not what they have to be, as a checked free answers them and a report tells them.

/// The parts of a slot whose bytes are checked.
#[derive(Clone, Copy, Debug, PartialEq, Eq)]
pub enum Zone {
    /// The left red zone, before the object.
    Left,
    /// The right red zone, behind the object.
    Right,
    /// The poison of a free object.
    Poison,
    /// The last byte of that poison.
    End,
    /// The padding behind the free pointer.
    Padding,
}

/// A byte that isn't what it has to be (`check_bytes_and_report`).
#[derive(Clone, Copy, Debug, PartialEq, Eq)]
pub struct Damage {
    pub zone: Zone,
    /// Where the byte is, in bytes from the object's address.
    pub offset: i32,
    pub found: u8,
    pub wanted: u8,
}

/// A damage of an object that was to be given.
#[derive(Clone, Copy, Debug, PartialEq, Eq)]
pub struct Report {
    /// The number of the cache.
    pub cache: u8,
    /// The address of the object, in bytes.
    pub address: u32,
    pub damage: Damage,
}
