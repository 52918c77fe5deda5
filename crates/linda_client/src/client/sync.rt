//! The beginning of a synchronization.

ghost use Rattle.std.specs.Prelude.{◌≡◌, ◌+◌, ◌≤◌, if◌then◌else◌, length, Ok, Err, OnOk};
ghost use Rattle.linda_wire.specs.declared.limits.TheConstants.{NUMBER_LIMIT};
ghost use Rattle.linda_event.specs.Limits.{IsWithinLimits, is_too_deep};
ghost use Rattle.linda_event.specs.Trees.{tree_of};
ghost use Rattle.linda_client.specs.declared.fault.ClientFault.TheVariants as faults;
ghost use Rattle.linda_client.specs.Ask.{asks};
ghost use Rattle.linda_client.specs.Beginning.{AtOnce};
ghost use Rattle.linda_client.specs.React.{Sync, ask_servers, has_too_many, lacks_tickets, react};
ghost use Rattle.linda_client.specs.Reaction.{Does};

use super::Client;
use crate::ask::asks_and_alarms;
use crate::fault::ClientFault;
use crate::outcome::Outcome;
use crate::pending::Pending;
use crate::reaction::Reaction;
use crate::ready::first_ready;
use linda_event::{Event, EventFault, ask_count, check, has_ready_base};
use linda_wire::NUMBER_LIMIT;
use std::alloc::Global;

impl Client {
    /// Waits for an event. If a base of it is ready, the first in tree order is committed to at
    /// once, and nothing is sent. Else each input and each read takes a ticket and is asked of all
    /// servers, and the synchronization is pending until it commits to one base or is abandoned.
    ///
    /// # Errors
    ///
    /// `Left` if the client has left; else `Busy` if an out, a synchronization or a leave is
    /// pending; else `TooDeep` if a leaf is under more than 64 nodes; else `TooManyBases` if there
    /// are more than 256 bases, or more than 64 of them are inputs or reads; else `Spent` if no
    /// base is ready and a ticket would reach 2^63; else `Memory` if memory runs out. In each case
    /// the client is as before, and the event is dropped.
    pub fn sync(&mut self, alloc: Global, event: Event) -> Result<Reaction, ClientFault>
        ensures { Does self.old result self.new (react self.old (Sync (tree_of event))) }
    {
        if let Some(reaction) = self.at_once(alloc, &event)? {
            return Ok(reaction);
        }
        self.ask(alloc, event)
    }

    // What the event commits to at once, if a base of it is ready.
    fn at_once(&self, alloc: Global, event: &Event) -> Result<Option<Reaction>, ClientFault>
        ensures { AtOnce self.now (tree_of event.now) result }
    {
        if self.has_left() {
            return Err(ClientFault::Left);
        }
        if !self.is_idle() {
            return Err(ClientFault::Busy);
        }
        within_limits(event)?;
        if self.lacks_tickets(event) {
            return Err(ClientFault::Spent);
        }
        let Some((base, got)) = first_ready(alloc, event, self.clock())? else {
            return Ok(None);
        };
        let outcome = Outcome::synced(alloc, event, base, got)?;
        Ok(Some(Reaction::ended(Vec::new(alloc), outcome)))
    }

    // The synchronization asks the servers.
    fn ask(&mut self, alloc: Global, event: Event) -> Result<Reaction, ClientFault>
        requires within { IsWithinLimits (tree_of event) }
        requires room { self.old.ticket + length (asks (tree_of event)) ≤ NUMBER_LIMIT }
        ensures { Does self.old result self.new (Ok (ask_servers self.old (tree_of event))) }
    {
        let (asks, alarms) = asks_and_alarms(alloc, &event)?;
        let pending = Pending::new(alloc, event, asks, alarms, self.ticket());
        let packets = pending.ask_packets(alloc, self.servers())?;
        self.begin(pending);
        Ok(Reaction::sending(packets))
    }

    // Whether no base of the event is ready, and a ticket would reach 2^63.
    fn lacks_tickets(&self, event: &Event) -> bool
        requires { IsWithinLimits (tree_of event.now) }
        ensures { result ≡ lacks_tickets self.now (tree_of event.now) }
    {
        let lacks = ask_count(event) as u64 > NUMBER_LIMIT - self.ticket();
        lacks && !has_ready_base(event, self.clock())
    }
}

// Whether the event is within its limits, or which it breaks.
fn within_limits(event: &Event) -> Result<(), ClientFault>
    ensures limits { result
        ≡ (if is_too_deep (tree_of event.now) then Err faults.TooDeep
        else (if has_too_many (tree_of event.now) then Err faults.TooManyBases else Ok tt)) }
    ensures within { OnOk result (IsWithinLimits (tree_of event.now)) }
{
    match check(event) {
        Ok(()) => Ok(()),
        Err(EventFault::TooDeep) => Err(ClientFault::TooDeep),
        Err(EventFault::TooManyBases) => Err(ClientFault::TooManyBases),
    }
}
