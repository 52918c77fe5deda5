//! Faults of the client's calls.

ghost use Rattle.std.specs.Prelude.{◌≡◌};
ghost use Rattle.linda_client.specs.declared.fault.ClientFault.TheVariants as faults;

use std::alloc::AllocError;
use thiserror::Error;

/// Why a call of the client is refused. The refusals are judged in this order, and `Memory` is
/// returned after all of them.
#[derive(Clone, Copy, Debug, PartialEq, Eq, Error)]
pub enum ClientFault {
    /// A client has 1 to 16 servers.
    #[error("a client has 1 to 16 servers")]
    ServersRange,
    /// The client has left.
    #[error("left")]
    Left,
    /// An out, a synchronization or a leave is pending, or an Accept is unanswered.
    #[error("busy")]
    Busy,
    /// No synchronization is pending.
    #[error("idle")]
    Idle,
    /// There is no such server.
    #[error("no such server")]
    NoServer,
    /// A leaf of the event is under more than 64 nodes.
    #[error("an event that is nested too deeply")]
    TooDeep,
    /// The event has more than 256 bases, or more than 64 of them are inputs or reads.
    #[error("too many bases")]
    TooManyBases,
    /// A number, the count of outs or a ticket would reach 2^63.
    #[error("numbers are spent")]
    Spent,
    /// Memory ran out.
    #[error("out of memory")]
    Memory,
}

impl From<AllocError> for ClientFault {
    ghost from_gives = { λ _ fault. fault ≡ faults.Memory };

    fn from(_error: AllocError) -> ClientFault {
        ClientFault::Memory
    }
}
