//! Faults that end a connection.

use std::alloc::AllocError;
use thiserror::Error;

/// Why a connection does not go on.
#[derive(Clone, Copy, Debug, PartialEq, Eq, Error)]
pub enum ProxyFault {
    /// No connection could be had.
    #[error("no connection")]
    Unreachable,
    /// The connection ended.
    #[error("connection lost")]
    Lost,
    /// What came is no frame of a server, or none that answers a Hello.
    #[error("not a server")]
    NotAServer,
    /// The server refused the greeting, with this code and this detail.
    #[error("refused {0} {1}")]
    Refused(u8, u64),
    /// Memory ran out.
    #[error("out of memory")]
    Memory,
}

impl From<AllocError> for ProxyFault {
    fn from(_error: AllocError) -> ProxyFault {
        ProxyFault::Memory
    }
}
