//! Faults of a line that was not done.

use std::alloc::{AllocError, AllocFailed};
use thiserror::Error;

/// What is wrong with a line of a script, or of one client.
#[derive(Clone, Copy, Debug, PartialEq, Eq, Error)]
pub enum LineFault {
    /// It is no command.
    #[error("not a command")]
    NotACommand,
    /// It names a server that is not there.
    #[error("no such server")]
    NoServer,
    /// It names one client more than there may be.
    #[error("too many clients")]
    TooManyClients,
    /// It leads to more deliveries than one command may.
    #[error("too many deliveries")]
    TooManyDeliveries,
    /// A server went down, or was down.
    #[error("server {0} down")]
    Down(u32),
    /// Memory ran out.
    #[error("memory")]
    Memory,
}

impl From<AllocError> for LineFault {
    fn from(_error: AllocError) -> LineFault {
        LineFault::Memory
    }
}

impl<T: Drop> From<AllocFailed<T>> for LineFault {
    fn from(_error: AllocFailed<T>) -> LineFault {
        LineFault::Memory
    }
}
