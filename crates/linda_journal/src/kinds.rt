//! The bytes of gates.

/// A gate of this byte is open; a gate of any other byte is closed.
pub const OPEN: u8 = 0x01;

/// The byte of a gate that is written closed.
pub const CLOSED: u8 = 0x00;
