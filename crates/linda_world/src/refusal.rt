//! Refusals of a world for the faults of its clients.

ghost use Rattle.std.specs.Prelude.{◌≡◌};
ghost use Rattle.linda_world.specs.Refusal.{world_fault};

use crate::fault::WorldFault;
use linda_client::ClientFault;

/// What the world returns for a client's fault: `Memory` is its own.
pub(crate) fn refused(fault: ClientFault) -> WorldFault
    ensures { result ≡ world_fault fault }
{
    match fault {
        ClientFault::ServersRange => WorldFault::Client(ClientFault::ServersRange),
        ClientFault::Left => WorldFault::Client(ClientFault::Left),
        ClientFault::Busy => WorldFault::Client(ClientFault::Busy),
        ClientFault::Idle => WorldFault::Client(ClientFault::Idle),
        ClientFault::NoServer => WorldFault::Client(ClientFault::NoServer),
        ClientFault::TooDeep => WorldFault::Client(ClientFault::TooDeep),
        ClientFault::TooManyBases => WorldFault::Client(ClientFault::TooManyBases),
        ClientFault::Spent => WorldFault::Client(ClientFault::Spent),
        ClientFault::Memory => WorldFault::Memory,
    }
}
