//! The codes of refusals.

pub const WRONG_VERSION: u8 = 1;

pub const KNOWN_CLIENT: u8 = 2;

pub const BUSY: u8 = 3;

pub const OLD_NUMBER: u8 = 4;

pub const NUMBER_GAP: u8 = 5;

pub const NO_ROOM: u8 = 6;

pub const TOO_MANY_CLIENTS: u8 = 7;

pub const SERVER_DOWN: u8 = 8;

pub const MALFORMED: u8 = 9;

pub const TOO_MANY_ASKS: u8 = 10;

pub const CLIENT_LEFT: u8 = 11;

pub const NO_HELLO: u8 = 12;

/// The detail of `NO_ROOM` if the server's store is full.
pub const STORE_FULL: u64 = 0;

/// The detail of `NO_ROOM` if ids or numbers are spent.
pub const NUMBERS_SPENT: u64 = 1;
