//! The limits of texts of events.

/// The most nodes that may be nested in an event that is read, the innermost one counted.
pub const MAX_NESTED: usize = 1000;
