//! The client's clock.

ghost use Rattle.linda_client.specs.React.{Tick, react};
ghost use Rattle.linda_client.specs.Reaction.{Does};

use super::Client;
use crate::fault::ClientFault;
use crate::outcome::Got;
use crate::reaction::Reaction;
use std::alloc::Global;

impl Client {
    /// Gives the client the time. Its clock never falls: a time that is past changes nothing. If a
    /// synchronization is pending, and no Accept of it is unanswered, the first alarm in tree order
    /// that is ready commits.
    ///
    /// # Errors
    ///
    /// `Memory` if memory runs out, and then the client is as before.
    pub fn tick(&mut self, alloc: Global, now: u64) -> Result<Reaction, ClientFault>
        ensures { Does self.old result self.new (react self.old (Tick now)) }
    {
        let clock = self.clock().max(now);
        if let Some(pending) = self.pending()
            && pending.accepted().is_none()
            && let Some(alarm) = pending.first_due(clock)
        {
            let reaction = pending.commit(alloc, self.servers(), None, alarm.base, Got::Alarm)?;
            self.advance(now);
            self.finish();
            return Ok(reaction);
        }
        self.advance(now);
        Ok(Reaction::quiet(alloc))
    }
}
