//! The kind bytes of messages and replies.

pub const HELLO: u8 = 0x01;

pub const OUT: u8 = 0x02;

pub const ASK: u8 = 0x03;

pub const ACCEPT: u8 = 0x04;

pub const CANCEL: u8 = 0x05;

pub const LEAVE: u8 = 0x06;

pub const WELCOME: u8 = 0x11;

pub const STORED: u8 = 0x12;

pub const OFFER: u8 = 0x13;

pub const READ: u8 = 0x14;

pub const TAKEN: u8 = 0x15;

pub const GONE: u8 = 0x16;

pub const REFUSED: u8 = 0x17;

pub const LEFT: u8 = 0x18;
