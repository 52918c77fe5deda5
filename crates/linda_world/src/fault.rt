//! Faults of a world that did nothing, or not all.

ghost use Rattle.std.specs.Prelude.{◌≡◌};
ghost use Rattle.linda_world.specs.declared.fault.WorldFault.TheVariants as faults;

use linda_client::ClientFault;
use std::alloc::AllocError;
use thiserror::Error;

/// Why an event was refused, or went wrong. The refusals, all but the last two, change nothing.
#[derive(Clone, Copy, Debug, PartialEq, Eq, Error)]
pub enum WorldFault {
    /// There is no client of this number.
    #[error("no such client")]
    NoClient,
    /// There is no such server.
    #[error("no such server")]
    NoServer,
    /// There is no such packet; in a stop, no such message to that server.
    #[error("no such packet")]
    NoPacket,
    /// There is a client of this number already.
    #[error("the client is known")]
    ClientKnown,
    /// A server is stopped at work on 64 packets at most.
    #[error("too many packets")]
    TooManyPackets,
    /// The client refuses the call.
    #[error("refused by the client: {0}")]
    Client(ClientFault),
    /// The event took place, and this server is down.
    #[error("server {0} is down")]
    Down(u32),
    /// Memory ran out. What the world shows is as before, and it does nothing more.
    #[error("out of memory")]
    Memory,
}

impl From<AllocError> for WorldFault {
    ghost from_gives = { λ _ fault. fault ≡ faults.Memory };

    fn from(_error: AllocError) -> WorldFault {
        WorldFault::Memory
    }
}
