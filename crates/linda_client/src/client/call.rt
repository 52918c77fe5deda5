//! Any call of the client.

ghost use Rattle.linda_client.specs.React.{react};
ghost use Rattle.linda_client.specs.Reaction.{Does};
ghost use Rattle.linda_client.specs.Call.{call_of};

use super::Client;
use crate::call::Call;
use crate::fault::ClientFault;
use crate::reaction::Reaction;
use std::alloc::Global;

impl Client {
    /// Makes the call.
    ///
    /// # Errors
    ///
    /// Those of the call, and then the client is as before.
    pub fn call(&mut self, alloc: Global, call: Call) -> Result<Reaction, ClientFault>
        ensures { Does self.old result self.new (react self.old (call_of call)) }
    {
        match call {
            Call::Out(tuple) => self.out(alloc, tuple),
            Call::Sync(event) => self.sync(alloc, event),
            Call::Receive(server, reply) => self.receive(alloc, server, &reply),
            Call::Tick(now) => self.tick(alloc, now),
            Call::Resend => self.resend(alloc),
            Call::Reconnected(server) => self.reconnected(alloc, server),
            Call::Abandon => self.abandon(alloc),
            Call::Leave => self.leave(alloc),
        }
    }
}
