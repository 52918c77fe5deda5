//! A synchronization that has not committed yet.

ghost use Rattle.std.specs.Prelude.{◌≡◌, ◌+◌, ◌<◌, ◌≤◌, ◌↔◌, [], None, Some, true, false, length};
ghost use Rattle.std.specs.Prelude.{option_copied, is_some, slice_get, IfOk, IsTrue, OnOk, OnErr};
ghost use Rattle.std.specs.List.{list_any};
ghost use Rattle.linda_tuple.specs.Matching.{Matches, bindings_of};
ghost use Rattle.linda_wire.specs.declared.limits.TheConstants.{NUMBER_LIMIT};
ghost use Rattle.linda_event.specs.Limits.{IsWithinLimits};
ghost use Rattle.linda_event.specs.Paths.{all_nacks};
ghost use Rattle.linda_event.specs.Trees.{tree_of};
ghost use Rattle.linda_client.specs.ArrivedTuple.{arrival_of};
ghost use Rattle.linda_client.specs.Ask.{asks as asks_of, alarms as alarms_of, first_alarm};
ghost use Rattle.linda_client.specs.Packets.{ask_packets, cancels_but, is_of, sent_for, spared};
ghost use Rattle.linda_client.specs.Pending.{FitsOpen, IsOpenInput, IsPending, ask_at, is_saved};
ghost use Rattle.linda_client.specs.Pending.{let_go, save_last, take_oldest};
ghost use Rattle.linda_client.specs.Pending.{ticket_count};
ghost use Rattle.linda_client.specs.React.{ask_of_taken, awaits};
ghost use Rattle.linda_client.specs.Reaction.{commitment};

use crate::arrived_tuple::{ArrivedTuple, ArrivedTupleRef, PendingAccept};
use crate::ask::{Alarm, Ask, first_due};
use crate::outcome::{Bindings, Got, Outcome};
use crate::packet::{push_asked, push_cancelled};
use crate::reaction::Reaction;
use linda_event::{Event, all_nacks};
use linda_tuple::{Tuple, bindings};
use linda_wire::Message;
use std::alloc::{AllocError, Global};
use std::collections::VecDeque;
use std::marker::Model;

/// A synchronization that waits: its event, the first of its tickets, the offer that it accepted
/// and that is not answered yet, and what arrived since and waits for that answer. The k-th ask,
/// from 0, has the first ticket plus k.
#[derive(Drop)]
pub(crate) struct Pending {
    event: Event,
    /// The inputs and reads of the event, in tree order.
    asks: Vec<Ask>,
    /// The alarms of the event, in tree order.
    alarms: Vec<Alarm>,
    first: u64,
    accepted: Option<PendingAccept>,
    saved: VecDeque<ArrivedTuple>,
}

impl Model for Pending {
    ghost use Rattle.linda_client.specs.Pending as seen;
    ghost use Rattle.linda_client.specs.PendingCode.{pending_code};

    ghost Value = { seen.Pending };

    ghost coded = { pending_code };

    ghost use Rattle.linda_client.specs.View.{pending_of, IsWhole};

    ghost view = { pending_of };

    ghost invariant = { IsWhole };
}

impl Pending {
    /// A synchronization that has accepted and saved nothing yet.
    pub(crate) fn new(
        alloc: Global,
        event: Event,
        asks: Vec<Ask>,
        alarms: Vec<Alarm>,
        first: u64,
    ) -> Pending
        requires within { IsWithinLimits (tree_of event) }
        requires asks { asks.items ≡ asks_of (tree_of event) }
        requires alarms { alarms.items ≡ alarms_of (tree_of event) }
        requires first { 1 ≤ first }
        requires last { first + length asks.items ≤ NUMBER_LIMIT }
        ensures { result ≡ record {
          event = tree_of event;
          first = first;
          accepted = None;
          saved = [];
        } }
    {
        Pending {
            event,
            asks,
            alarms,
            first,
            accepted: None,
            saved: VecDeque::new(alloc),
        }
    }

    /// How many tickets are open.
    pub(crate) fn ticket_count(&self) -> u64
        ensures count { result ≡ ticket_count self.now }
        ensures keeps { IsPending self.now }
    {
        self.asks.len() as u64
    }

    /// What is asked by the ticket, if it is open.
    pub(crate) fn ask_at(&self, ticket: u64) -> Option<&Ask>
        ensures ask { option_copied result ≡ ask_at self.now ticket }
        ensures keeps { IsPending self.now }
    {
        if ticket < self.first {
            return None;
        }
        self.asks.get((ticket - self.first) as usize)
    }

    /// The offer that was accepted and is not answered yet.
    pub(crate) fn accepted(&self) -> Option<PendingAccept>
        ensures accepted { result ≡ self.now.accepted }
        ensures keeps { IsPending self.now }
    {
        self.accepted
    }

    /// Whether the arrival is saved already: the same server, ticket and id.
    pub(crate) fn is_saved(&self, arriving: ArrivedTupleRef) -> bool
        ensures { result ≡ is_saved self.now (arrival_of arriving.entry) }
    {
        self.saved
            .iter()
            .any(|saved| saved.is_same_arrival(arriving))
    }

    /// What the tuple was asked by that a server took for the client's message `n`, if that is the
    /// Accept that is not answered yet, and the id is that of its offer.
    pub(crate) fn ask_taken(&self, server: u32, n: u64, id: u64) -> Option<&Ask>
        ensures { option_copied result ≡ ask_of_taken self.now self.now.accepted server n id }
    {
        match self.accepted {
            Some(own) if own.is_answer(server, n) && own.id == id => self.ask_at(own.ticket),
            _ => None,
        }
    }

    /// Whether an Accept of this server and number is not answered yet.
    pub(crate) fn awaits(&self, server: u32, n: u64) -> bool
        ensures awaits { result ≡ awaits self.now.accepted server n }
    {
        match self.accepted {
            Some(own) => own.is_answer(server, n),
            None => false,
        }
    }

    /// Whether anything is saved.
    pub(crate) fn has_saved(&self) -> bool
        ensures some { IsTrue result ↔ (0 < length self.now.saved) }
        ensures none { result ≡ false → self.now.saved ≡ [] }
    {
        !self.saved.is_empty()
    }

    /// The arrival that has been saved longest.
    pub(crate) fn oldest(&self) -> &ArrivedTuple
        requires { 0 < length self.now.saved }
        ensures oldest { slice_get self.now.saved 0 ≡ Some result.now }
        ensures fits { FitsOpen self.now result.now }
    {
        &self.saved[0]
    }

    /// What an arrival answers that fits an open ticket.
    pub(crate) fn ask_of(&self, arrival: &ArrivedTuple) -> &Ask
        requires { FitsOpen self.now arrival.now }
        ensures ask { ask_at self.now arrival.now.ticket ≡ Some result.now }
        ensures fits { Matches result.now.template arrival.now.tuple }
    {
        &self.asks[(arrival.ticket - self.first) as usize]
    }

    /// The first alarm that is ready at this clock.
    pub(crate) fn first_due(&self, clock: u64) -> Option<Alarm>
        ensures { result ≡ first_alarm clock self.now.event }
    {
        first_due(&self.alarms, clock)
    }

    /// The server and the ticket that are spared when the synchronization commits: those of the
    /// accepted offer, unless an offer of them is saved.
    pub(crate) fn spared(&self) -> Option<(u32, u64)>
        ensures { result ≡ spared self.now }
    {
        match self.accepted {
            Some(own) if !self.has_saved_arrival(own.server, own.ticket) => Some((
                own.server, own.ticket,
            )),
            _ => None,
        }
    }

    // Whether an arrival of this server and ticket is saved.
    fn has_saved_arrival(&self, server: u32, ticket: u64) -> bool
        ensures { result ≡ list_any (is_of (server, ticket)) self.now.saved }
    {
        self.saved.iter().any(|saved| saved.is_of(server, ticket))
    }

    /// The Asks of all tickets to all servers: by rising ticket, then rising server.
    pub(crate) fn ask_packets(
        &self,
        alloc: Global,
        servers: u32,
    ) -> Result<Vec<(u32, Message)>, AllocError>
        ensures { IfOk result (λ v. v.items ≡ ask_packets servers self.now) }
    {
        let mut packets = Vec::new(alloc);
        for (number, ask) in self.asks.iter().enumerate() {
            push_asked(
                alloc,
                servers,
                self.first + number as u64,
                ask,
                &mut packets,
            )?;
        }
        Ok(packets)
    }

    /// The Accept that is not answered yet, then the Asks of all tickets.
    pub(crate) fn sent_again(
        &self,
        alloc: Global,
        servers: u32,
    ) -> Result<Vec<(u32, Message)>, AllocError>
        ensures { IfOk result (λ v. v.items ≡ sent_for servers self.now) }
    {
        let mut packets = Vec::new(alloc);
        if let Some(own) = self.accepted {
            packets.push((own.server, own.message()))?;
        }
        packets.append(&mut self.ask_packets(alloc, servers)?)?;
        Ok(packets)
    }

    /// The Cancels of all tickets to all servers unless they are spared: by rising ticket, then
    /// rising server.
    pub(crate) fn cancels(
        &self,
        alloc: Global,
        servers: u32,
        spared: Option<(u32, u64)>,
    ) -> Result<Vec<(u32, Message)>, AllocError>
        ensures { IfOk result (λ v. v.items ≡ cancels_but servers spared self.now) }
    {
        let mut packets = Vec::new(alloc);
        for number in 0..self.asks.len() {
            push_cancelled(servers, spared, self.first + number as u64, &mut packets)?;
        }
        Ok(packets)
    }

    /// The end of the synchronization by a commitment to the base, with the Cancels unless they are
    /// spared.
    pub(crate) fn commit(
        &self,
        alloc: Global,
        servers: u32,
        spared: Option<(u32, u64)>,
        base: usize,
        got: Got,
    ) -> Result<Reaction, AllocError>
        ensures packets { IfOk result (λ r. r.packets.items ≡ cancels_but servers spared self.now) }
        ensures outcome { IfOk result (λ r. r.outcome ≡ Some (commitment self.now.event base got)) }
        ensures fault { IfOk result (λ r. r.fault ≡ None) }
    {
        let packets = self.cancels(alloc, servers, spared)?;
        let outcome = Outcome::synced(alloc, &self.event, base, got)?;
        Ok(Reaction::ended(packets, outcome))
    }

    /// What the synchronization raises if it is abandoned: all nack numbers, in tree order.
    pub(crate) fn all_nacks(&self, alloc: Global) -> Result<Vec<u64>, AllocError>
        ensures { IfOk result (λ v. v.items ≡ all_nacks self.now.event) }
    {
        all_nacks(alloc, &self.event)
    }

    /// Notes that an offer was accepted: the oldest that is saved, if some are.
    pub(crate) fn accept(&mut self, accepted: PendingAccept)
        requires { IsOpenInput self.old accepted.ticket }
        ensures accepted { self.new ≡ take_oldest accepted self.old }
        ensures keeps { IsPending self.new }
    {
        self.saved.pop_front();
        self.accepted = Some(accepted);
    }

    /// Saves an arrival until the accepted offer is answered.
    ///
    /// # Errors
    ///
    /// `AllocError` if memory runs out, and then the synchronization is as before.
    pub(crate) fn save(&mut self, arrival: ArrivedTuple) -> Result<(), AllocError>
        requires fits { FitsOpen self.old arrival }
        requires accepted { is_some self.old.accepted ≡ true }
        ensures ok { OnOk result (self.new ≡ save_last arrival self.old) }
        ensures err { OnErr result (self.new ≡ self.old) }
        ensures keeps { IsPending self.new }
    {
        self.saved.push_back(arrival)?;
        Ok(())
    }

    /// Notes that the accepted offer is gone, if nothing is saved.
    pub(crate) fn wait(&mut self)
        requires { self.old.saved ≡ [] }
        ensures waits { self.new ≡ let_go self.old }
        ensures keeps { IsPending self.new }
    {
        self.accepted = None;
    }
}

/// What a commitment to a base by this arrival got: the tuple with what its template bound.
pub(crate) fn bound(
    alloc: Global,
    ask: &Ask,
    tuple: &Tuple,
) -> Result<(Tuple, Bindings), AllocError>
    requires { Matches ask.now.template tuple.now }
    ensures tuple { IfOk result (λ b. b.0 ≡ tuple.now) }
    ensures bindings { IfOk result (λ b. b.1 ≡ bindings_of ask.now.template tuple.now) }
{
    Ok((
        tuple.try_clone(alloc)?,
        Bindings::new(bindings(alloc, &ask.template, tuple)?),
    ))
}
