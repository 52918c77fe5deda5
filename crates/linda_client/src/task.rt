//! Tasks of a client: what is pending.

ghost use Rattle.std.specs.Prelude.{◌≡◌};
ghost use Rattle.linda_client.specs.Client.{is_out_of};

use crate::leaves::Leaves;
use crate::pending::Pending;
use linda_tuple::Tuple;

/// What is pending at a client: nothing, an out that no server has answered, a synchronization, or
/// the Leaves that are not answered yet; or nothing for good, since the client has left.
#[derive(Drop)]
pub(crate) enum Task {
    Idle,
    Putting { server: u32, n: u64, tuple: Tuple },
    Syncing(Pending),
    Leaving(Leaves),
    Left,
}

impl Task {
    /// Whether an out of this number to this server is pending.
    pub(crate) fn is_out_of(&self, server: u32, n: u64) -> bool
        ensures { result ≡ is_out_of self.now server n }
    {
        match self {
            Task::Putting {
                server: own,
                n: number,
                ..
            } => *own == server && *number == n,
            _ => false,
        }
    }
}
