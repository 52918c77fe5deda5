//! The limits of a page, and of a piece of it, which is listed in one call.

/// How many tuples or clients one page has at most, and how many clients are looked at for a count.
pub const MOST_LOOKED: u32 = 1_000;

/// A page ends with the tuple by which its tuples come to so many bytes, as they are spelled in the
/// second form.
pub const MOST_BYTES: usize = 262_144;

/// How many kinds of tuples are looked at for one list at most.
pub const MOST_KINDS: usize = 10_000;

/// How many tuples or kinds one piece has at most: so many are copied in one call.
pub const MOST_AT_ONCE: usize = 64;

/// A piece ends with the tuple by which its tuples come to so many bytes, as they are spelled in
/// the second form.
pub const BYTES_AT_ONCE: usize = 65_536;
