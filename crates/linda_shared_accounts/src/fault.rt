//! Faults of a shared server's calls.

use thiserror::Error;

/// Why a call of a shared server did not do what it was asked.
#[derive(Clone, Copy, Debug, PartialEq, Eq, Error)]
pub enum SharedFault {
    /// The server is down.
    #[error("down")]
    Down,
    /// A bank has no room for what was asked. Nothing changed.
    #[error("full")]
    Full,
    /// A seat is still out.
    #[error("a seat is missing")]
    SeatMissing,
    /// The receipt of this number that was reported to the client differs from what was stored.
    #[error("receipt {number} of client {client} differs")]
    Receipt { client: u32, number: u64 },
    /// This client's worker waited too long at a closed gate.
    #[error("client {0} is stuck")]
    Stuck(u32),
    /// No thread could be started.
    #[error("no thread")]
    NoThread,
    /// Memory ran out. Nothing changed.
    #[error("memory")]
    Memory,
}
