//! The client leaves.

ghost use Rattle.std.specs.Prelude.{◌≡◌};
ghost use Rattle.linda_client.specs.React.{Leave, on_left, react};
ghost use Rattle.linda_client.specs.Reaction.{Does, shown};

use super::Client;
use crate::fault::ClientFault;
use crate::outcome::Outcome;
use crate::reaction::Reaction;
use std::alloc::Global;

impl Client {
    /// Gives the number of the client up for good: a Leave goes to every server, under its next
    /// number. It is pending until all have answered. Then the client has left: it sends nothing
    /// more but Cancels of offers that come late.
    ///
    /// # Errors
    ///
    /// `Left` if the client has left; else `Busy` if an out, a synchronization or a leave is
    /// pending; else `Spent` if the next number of some server is 2^63; else `Memory` if memory
    /// runs out. In each case the client is as before.
    pub fn leave(&mut self, alloc: Global) -> Result<Reaction, ClientFault>
        ensures { Does self.old result self.new (react self.old Leave) }
    {
        if self.has_left() {
            return Err(ClientFault::Left);
        }
        if !self.is_idle() {
            return Err(ClientFault::Busy);
        }
        if self.is_any_spent() {
            return Err(ClientFault::Spent);
        }
        let leaves = self.leaves(alloc)?;
        let packets = leaves.packets(alloc)?;
        self.depart(leaves);
        Ok(Reaction::sending(packets))
    }

    // A server has answered the client's Leave of this number.
    pub(super) fn left(&mut self, alloc: Global, server: u32, n: u64) -> Reaction
        ensures { on_left self.old self.old.task server n ≡ shown result self.new }
    {
        if !self.drop_leave(server, n) {
            return Reaction::quiet(alloc);
        }
        Reaction::ended(Vec::new(alloc), Outcome::Left)
    }
}
