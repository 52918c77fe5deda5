//! The bytes of the kinds of deeds.

/// Of an Out.
pub const OUT: u8 = 0x01;

/// Of a Take.
pub const TAKE: u8 = 0x02;

/// Of a Pass.
pub const PASS: u8 = 0x03;

/// Of a Leave, which only banks of the second form have.
pub const LEAVE: u8 = 0x04;
