//! The bytes that have a meaning in texts of events: brackets, and the letters that distinguish
//! keywords.

/// Before the members of a choice.
pub const OPENING_BRACKET: u8 = b'[';

/// After the last member of a choice.
pub const CLOSING_BRACKET: u8 = b']';

/// The first letter of `in`.
pub const IN_LETTER: u8 = b'i';

/// The first letter of `rd`.
pub const RD_LETTER: u8 = b'r';

/// The first letter of `alarm` and of `always`.
pub const A_LETTER: u8 = b'a';

/// The first letter of `never` and of `nack`.
pub const N_LETTER: u8 = b'n';

/// The first letter of `choose`.
pub const CHOOSE_LETTER: u8 = b'c';

/// The first letter of `wrap`.
pub const WRAP_LETTER: u8 = b'w';

/// The third letter of `always`, and not of `alarm`.
pub const ALWAYS_LETTER: u8 = b'w';

/// The second letter of `nack`, and not of `never`.
pub const NACK_LETTER: u8 = b'a';
