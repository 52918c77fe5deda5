//! The end of a synchronization by its client.

ghost use Rattle.linda_client.specs.React.{Abandon, react};
ghost use Rattle.linda_client.specs.Reaction.{Does};

use super::Client;
use crate::fault::ClientFault;
use crate::outcome::{Numbers, Outcome};
use crate::reaction::Reaction;
use std::alloc::Global;

impl Client {
    /// Abandons the synchronization that is pending: every ticket is cancelled at every server, and
    /// all nack numbers are raised.
    ///
    /// # Errors
    ///
    /// `Left` if the client has left; else `Busy` if an Accept is unanswered; `Idle` if no
    /// synchronization is pending; else `Memory` if memory runs out. In each case the client is as
    /// before.
    pub fn abandon(&mut self, alloc: Global) -> Result<Reaction, ClientFault>
        ensures { Does self.old result self.new (react self.old Abandon) }
    {
        if self.has_left() {
            return Err(ClientFault::Left);
        }
        let Some(pending) = self.pending() else {
            return Err(ClientFault::Idle);
        };
        if pending.accepted().is_some() {
            return Err(ClientFault::Busy);
        }
        let packets = pending.cancels(alloc, self.servers(), None)?;
        let raised = Numbers::new(pending.all_nacks(alloc)?);
        self.finish();
        Ok(Reaction::ended(packets, Outcome::Dropped { raised }))
    }
}
