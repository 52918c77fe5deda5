//! Messages that the client sends again.

ghost use Rattle.std.specs.Prelude.{◌≡◌, IfOk};
ghost use Rattle.linda_client.specs.Packets.{sent_again};
ghost use Rattle.linda_client.specs.React.{Reconnected, Resend, react};
ghost use Rattle.linda_client.specs.Reaction.{Does};

use super::Client;
use crate::fault::ClientFault;
use crate::packet::{one_packet, retain_to};
use crate::reaction::Reaction;
use crate::task::Task;
use linda_wire::Message;
use std::alloc::{AllocError, Global};

impl Client {
    /// Sends again what no server has answered: the Out or the Accept that is pending, then the
    /// Asks of all open tickets, in the order in which they were sent; or the Leaves, by rising
    /// server; or nothing, if the client has left. The client stays as it is.
    ///
    /// # Errors
    ///
    /// `Memory` if memory runs out.
    pub fn resend(&self, alloc: Global) -> Result<Reaction, ClientFault>
        ensures { Does self.now result self.now (react self.now Resend) }
    {
        Ok(Reaction::sending(self.sent_again(alloc)?))
    }

    /// Sends again what this server has not answered: those of `resend` that go to it. The client
    /// stays as it is.
    ///
    /// # Errors
    ///
    /// `NoServer` if there is no such server; else `Memory` if memory runs out.
    pub fn reconnected(&self, alloc: Global, server: u32) -> Result<Reaction, ClientFault>
        ensures { Does self.now result self.now (react self.now (Reconnected server)) }
    {
        if server >= self.servers() {
            return Err(ClientFault::NoServer);
        }
        let mut packets = self.sent_again(alloc)?;
        retain_to(server, &mut packets);
        Ok(Reaction::sending(packets))
    }

    // The numbered messages that are not answered yet, then the Asks of all open tickets.
    fn sent_again(&self, alloc: Global) -> Result<Vec<(u32, Message)>, AllocError>
        ensures { IfOk result (λ v. v.items ≡ sent_again self.now) }
    {
        match &self.task {
            Task::Idle | Task::Left => Ok(Vec::new(alloc)),
            Task::Putting { server, n, tuple } => {
                let tuple = tuple.try_clone(alloc)?;
                one_packet(alloc, *server, Message::Out { n: *n, tuple })
            }
            Task::Syncing(pending) => pending.sent_again(alloc, self.servers()),
            Task::Leaving(leaves) => leaves.packets(alloc),
        }
    }
}
