//! Limits of what a session carries.

/// How many receipts a session keeps: the last ones.
pub const RING_SIZE: usize = 256;

/// How many messages of one session may be on their way at once.
pub const MOST_ASKED: u64 = 64;

/// The parts of the ledger: so many are handed out in all.
pub const PARTS: u64 = 1 << 40;

/// The parts of one account: one stays, and one goes with each message that is on its way.
pub const ACCOUNT_PARTS: u64 = MOST_ASKED + 1;
