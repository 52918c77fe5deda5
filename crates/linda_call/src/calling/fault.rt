//! Faults that end a call.

ghost use Rattle.std.specs.Prelude.{◌≡◌};
ghost use Rattle.linda_call.specs.Statuses.{status_of_call};

use linda_pipe::{BAD_LINE, REFUSED};
use linda_shell_text::LineFault;
use std::alloc::{AllocError, AllocFailed};
use thiserror::Error;

/// Why a call ended before its input did.
#[derive(Clone, Copy, Debug, PartialEq, Eq, Error)]
pub enum CallFault {
    /// The line of this number, from 1, was not done: it is no line of a client, or memory ran out.
    #[error("line {0}: {1}")]
    Line(u64, LineFault),
    /// There is no connection to the server of this number.
    #[error("server {0}: no connection")]
    NoConnection(u32),
    /// The server of this number refused, with this code and this detail.
    #[error("server {0}: refused {1} {2}")]
    Refused(u32, u8, u64),
    /// The server of this number welcomed the client again with a lower number than it had
    /// answered: its folder was restored from a copy.
    #[error("server {0}: restored")]
    Restored(u32),
    /// Another program uses the client's number at the server of this number: that welcomed the
    /// client with a higher number than it was sent, or gave a reply that cannot answer the message
    /// under its number.
    #[error("server {0}: number in use")]
    InUse(u32),
    /// What listens in place of the server of this number answered the greeting as no server does.
    #[error("server {0}: not a server")]
    NotAServer(u32),
    /// Memory, or a thread, could not be had.
    #[error("memory")]
    Memory,
    /// The input could not be read.
    #[error("io")]
    Read,
    /// The output could not be written.
    #[error("io")]
    Write,
    /// The input was read 4,294,967,295 times, and it has not ended.
    #[error("io")]
    Turns,
    /// The clock could not be read.
    #[error("io")]
    Clock,
}

impl From<AllocError> for CallFault {
    fn from(_error: AllocError) -> CallFault {
        CallFault::Memory
    }
}

impl<T: Drop> From<AllocFailed<T>> for CallFault {
    fn from(_error: AllocFailed<T>) -> CallFault {
        CallFault::Memory
    }
}

impl CallFault {
    /// The exit status of a program that ends so.
    pub fn status(self) -> u8
        ensures { result ≡ status_of_call self }
    {
        match self {
            CallFault::Line(_, _) => BAD_LINE,
            CallFault::NoConnection(_) => REFUSED,
            CallFault::Refused(_, _, _) => REFUSED,
            CallFault::Restored(_) => REFUSED,
            CallFault::InUse(_) => REFUSED,
            CallFault::NotAServer(_) => REFUSED,
            CallFault::Memory => REFUSED,
            CallFault::Read => REFUSED,
            CallFault::Write => REFUSED,
            CallFault::Turns => REFUSED,
            CallFault::Clock => REFUSED,
        }
    }
}
