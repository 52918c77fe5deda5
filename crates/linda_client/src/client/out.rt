//! The client's outs.

ghost use Rattle.std.specs.Prelude.{◌≡◌};
ghost use Rattle.linda_client.specs.React.{Out, on_stored, react};
ghost use Rattle.linda_client.specs.Reaction.{Does, shown};

use super::Client;
use crate::fault::ClientFault;
use crate::outcome::Outcome;
use crate::packet::one_packet;
use crate::reaction::Reaction;
use linda_tuple::Tuple;
use linda_wire::{Message, NUMBER_LIMIT};
use std::alloc::Global;

impl Client {
    /// Puts a tuple: the j-th out of the client, from 0, goes to the server that its number plus j
    /// leaves by the count of servers, under the next number there. It is pending until that server
    /// answers.
    ///
    /// # Errors
    ///
    /// `Left` if the client has left; else `Busy` if an out, a synchronization or a leave is
    /// pending; else `Spent` if the next number of that server, or the count of outs, would reach
    /// 2^63; else `Memory` if memory runs out. In each case the client is as before, and the tuple
    /// is dropped.
    pub fn out(&mut self, alloc: Global, tuple: Tuple) -> Result<Reaction, ClientFault>
        ensures { Does self.old result self.new (react self.old (Out tuple)) }
    {
        if self.has_left() {
            return Err(ClientFault::Left);
        }
        if !self.is_idle() {
            return Err(ClientFault::Busy);
        }
        let server = self.out_server();
        let n = self.next_at(server);
        if n == NUMBER_LIMIT || self.outs() + 1 == NUMBER_LIMIT {
            return Err(ClientFault::Spent);
        }
        let sent = tuple.try_clone(alloc)?;
        let packets = one_packet(alloc, server, Message::Out { n, tuple: sent })?;
        self.put(server, tuple);
        Ok(Reaction::sending(packets))
    }

    // A server stored a tuple under this id, for the client's message `n`.
    pub(super) fn stored(&mut self, alloc: Global, server: u32, n: u64, id: u64) -> Reaction
        ensures { on_stored self.old server n id ≡ shown result self.new }
    {
        if !self.task.is_out_of(server, n) {
            return Reaction::quiet(alloc);
        }
        self.finish();
        Reaction::ended(Vec::new(alloc), Outcome::Stored { server, id })
    }
}
