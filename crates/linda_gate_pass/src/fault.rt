//! The faults after which nothing more passes.

use thiserror::Error;

/// Why nothing more passes.
#[derive(Clone, Copy, Debug, PartialEq, Eq, Error)]
pub enum PassFault {
    /// What comes begins with no head by which client numbers are allowed.
    #[error("no certificate")]
    NoHead,
    /// Memory ran out.
    #[error("out of memory")]
    Memory,
    /// The bytes at the front are no frame of a message.
    #[error("no message")]
    NoMessage,
    /// The message at the front may not pass: the first one is no Hello of a client that is
    /// allowed, or a later one is a Hello.
    #[error("not allowed")]
    NotAllowed,
}
