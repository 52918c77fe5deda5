//! The bytes of kinds: of atoms, and of what is only in templates; and those of truth values.

/// Of an integer.
pub const INTEGER: u8 = 1;

/// Of a text.
pub const TEXT: u8 = 2;

/// Of a truth value.
pub const TRUTH: u8 = 3;

/// Of any integer, in a template.
pub const INT_FORMAL: u8 = 4;

/// Of any text, in a template.
pub const TEXT_FORMAL: u8 = 5;

/// Of any truth value, in a template.
pub const BOOL_FORMAL: u8 = 6;

/// Of anything, in a template.
pub const WILDCARD: u8 = 7;
