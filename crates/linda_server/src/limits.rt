//! The limits of a server.

use linda_journal::{GATE_BYTES, MIN_BYTES};
use linda_snap::EMPTY_STATE_BYTES;

/// The fewest bytes that a bank may be limited to: those of a new one, whose body is a snapshot of
/// the empty state, and whose journal is a closed gate.
pub const MIN_LIMIT: usize = MIN_BYTES + EMPTY_STATE_BYTES + GATE_BYTES;

/// The most bytes that a bank may be limited to.
pub const MAX_LIMIT: usize = 1_073_741_824;

/// So many records after a snapshot ask for the next one.
pub const SNAPSHOT_RECORDS: usize = 1024;
