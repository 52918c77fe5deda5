//! Limits of an event's size.

/// The most choices, labels and nack numbers that may be above a leaf.
pub const MAX_DEPTH: usize = 64;

/// The most bases of an event.
pub const MAX_BASES: usize = 256;

/// The most inputs and reads among the bases of an event.
pub const MAX_ASKS: usize = 64;
