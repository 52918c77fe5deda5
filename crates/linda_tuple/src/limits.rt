//! Limits of values.

/// The longest text of a tuple or a template, in bytes.
pub const MAX_TEXT: usize = 4095;

/// The most fields, or patterns, that may follow a tag.
pub const MAX_FIELDS: usize = 32;

/// The longest text that the first form spells, in bytes.
pub const ONE_MAX_TEXT: usize = 255;

/// The most fields, or patterns, after a tag that the first form spells.
pub const ONE_MAX_FIELDS: usize = 16;

/// If the texts of a tuple have so many bytes together, its copies may share its memory.
pub(crate) const SHARED_FROM: usize = 1_024;
