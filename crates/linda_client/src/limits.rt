//! The limit of a client that is its own; those of events and numbers are with these.

/// The most servers of a client. They are numbered from 0.
pub const MAX_SERVERS: u32 = 16;
