//! Replies of servers, as the client takes them.

ghost use Rattle.std.specs.Prelude.{◌≡◌, ◌<◌, [], None, Some, Ok, IfOk, IsSome, is_some, true};
ghost use Rattle.linda_tuple.specs.Matching.{Matches};
ghost use Rattle.linda_client.specs.ArrivedTuple.{arrival_of};
ghost use Rattle.linda_client.specs.Client as seen;
ghost use Rattle.linda_client.specs.Client.{OfPending, pending_in, servers};
ghost use Rattle.linda_client.specs.Packets.{cancels_but};
ghost use Rattle.linda_client.specs.Pending.{FitsOpen, IsOpenInput, drop_oldest};
ghost use Rattle.linda_client.specs.React as spec;
ghost use Rattle.linda_client.specs.React.{got_by_read, react};
ghost use Rattle.linda_client.specs.Reaction.{Does, commitment};

use super::Client;
use crate::arrived_tuple::{ArrivedTupleRef, PendingAccept};
use crate::ask::Ask;
use crate::fault::ClientFault;
use crate::outcome::Got;
use crate::packet::one_packet;
use crate::pending::{Pending, bound};
use crate::reaction::Reaction;
use linda_tuple::Tuple;
use linda_wire::{Message, NUMBER_LIMIT, Reply};
use std::alloc::{AllocError, Global};

impl Client {
    /// Takes a reply of a server. Which replies change something depends on what is pending:
    ///
    /// - Stored ends the out that is pending, if server and number are its own.
    /// - An offer for an open ticket whose template matches it is accepted, and a copy commits to
    ///   its base, unless an Accept is unanswered: then both are saved, each once. An offer for any
    ///   other ticket is answered by a Cancel.
    /// - Taken, for the Accept that is unanswered, commits to its base. Gone, for that Accept, lets
    ///   the client go on with the oldest arrival that it saved, else with the first alarm that is
    ///   ready, else wait.
    /// - Left, for a Leave that is not answered yet, answers it, and after the last the client has
    ///   left.
    /// - Refused is handed on as a fault, whatever is pending.
    ///
    /// All else is ignored, and so is all but offers and refusals by a client that has left. At a
    /// commitment every ticket is cancelled at every server, but for the ticket and the server of
    /// the accepted offer, unless an offer of them is saved.
    ///
    /// # Errors
    ///
    /// `NoServer` if there is no such server; else `Spent` if an offer would be accepted and the
    /// next number of its server is 2^63; else `Memory` if memory runs out. In each case the client
    /// is as before.
    pub fn receive(
        &mut self,
        alloc: Global,
        server: u32,
        reply: &Reply,
    ) -> Result<Reaction, ClientFault>
        ensures { Does self.old result self.new (react self.old (spec.Receive server reply.now)) }
    {
        if server >= self.servers() {
            return Err(ClientFault::NoServer);
        }
        match reply {
            Reply::Welcome { .. } => Ok(Reaction::quiet(alloc)),
            Reply::Stored { n, id } => Ok(self.stored(alloc, server, *n, *id)),
            Reply::Offer { ticket, id, tuple } => {
                self.arrived(
                    alloc,
                    true,
                    ArrivedTupleRef::new(server, *ticket, *id, tuple),
                )
            }
            Reply::Read { ticket, id, tuple } => {
                self.arrived(
                    alloc,
                    false,
                    ArrivedTupleRef::new(server, *ticket, *id, tuple),
                )
            }
            Reply::Taken { n, id, tuple } => self.taken(alloc, server, *n, *id, tuple),
            Reply::Gone { n } => self.gone(alloc, server, *n),
            Reply::Refused { code, detail } => {
                Ok(Reaction::faulted(alloc, server, *code, *detail))
            }
            Reply::Left { n } => Ok(self.left(alloc, server, *n)),
        }
    }

    // An offer (`remove`) or a copy has arrived.
    fn arrived(
        &mut self,
        alloc: Global,
        remove: bool,
        arriving: ArrivedTupleRef,
    ) -> Result<Reaction, ClientFault>
        requires { arriving.server < servers self.old }
        ensures { Does self.old result self.new
            (spec.on_arrival self.old (pending_in self.old.task) remove
            (arrival_of arriving.entry)) }
    {
        let Some(pending) = self.pending() else {
            return stray(alloc, remove, arriving);
        };
        let Some(ask) = pending.ask_at(arriving.ticket) else {
            return stray(alloc, remove, arriving);
        };
        if !ask.fits(remove, arriving.tuple) {
            return Ok(Reaction::quiet(alloc));
        }
        if pending.accepted().is_some() {
            return self.keep(alloc, arriving);
        }
        if ask.remove {
            return self.take_up(alloc, arriving.server, arriving.ticket, arriving.id);
        }
        let reaction = copied(alloc, self.servers(), pending, ask, arriving)?;
        self.finish();
        Ok(reaction)
    }

    // An arrival is saved, unless it is saved already.
    fn keep(&mut self, alloc: Global, arriving: ArrivedTupleRef) -> Result<Reaction, ClientFault>
        requires pending { IsSome (pending_in self.old.task) }
        requires server { arriving.server < servers self.old }
        requires fits { OfPending self.old (λ p. FitsOpen p (arrival_of arriving)) }
        requires accepted { OfPending self.old (λ p. is_some p.accepted ≡ true) }
        ensures { OfPending self.old (λ p. Does self.old result self.new
            (Ok (spec.save self.old p (arrival_of arriving.entry)))) }
    {
        if let Some(pending) = self.pending()
            && pending.is_saved(arriving)
        {
            return Ok(Reaction::quiet(alloc));
        }
        self.save(arriving.to_arrival(alloc)?)?;
        Ok(Reaction::quiet(alloc))
    }

    // An offer is accepted, under the next number of its server.
    fn take_up(
        &mut self,
        alloc: Global,
        server: u32,
        ticket: u64,
        id: u64,
    ) -> Result<Reaction, ClientFault>
        requires server { server < servers self.old }
        requires pending { IsSome (pending_in self.old.task) }
        requires input { OfPending self.old (λ p. IsOpenInput p ticket) }
        ensures { OfPending self.old (λ p. Does self.old result self.new
            (spec.accept self.old (drop_oldest p) server ticket id)) }
    {
        let n = self.next_at(server);
        if n == NUMBER_LIMIT {
            return Err(ClientFault::Spent);
        }
        let packets = one_packet(alloc, server, Message::Accept { n, ticket, id })?;
        self.accept(PendingAccept {
            server,
            n,
            ticket,
            id,
        });
        Ok(Reaction::sending(packets))
    }

    // A tuple was taken for the client's message `n`.
    fn taken(
        &mut self,
        alloc: Global,
        server: u32,
        n: u64,
        id: u64,
        tuple: &Tuple,
    ) -> Result<Reaction, ClientFault>
        ensures { Does self.old result self.new
            (Ok (spec.on_taken self.old (pending_in self.old.task) server n id tuple.now)) }
    {
        let Some(pending) = self.pending() else {
            return Ok(Reaction::quiet(alloc));
        };
        let Some(ask) = pending.ask_taken(server, n, id) else {
            return Ok(Reaction::quiet(alloc));
        };
        if !ask.fits(true, tuple) {
            return Ok(Reaction::quiet(alloc));
        }
        let (tuple, bindings) = bound(alloc, ask, tuple)?;
        let got = Got::Took {
            server,
            id,
            tuple,
            bindings,
        };
        let reaction = pending.commit(alloc, self.servers(), pending.spared(), ask.base, got)?;
        self.finish();
        Ok(reaction)
    }

    // The offer that the client's message `n` accepted is gone.
    fn gone(&mut self, alloc: Global, server: u32, n: u64) -> Result<Reaction, ClientFault>
        ensures { Does self.old result self.new
            (spec.on_gone self.old (pending_in self.old.task) server n) }
    {
        let Some(pending) = self.pending() else {
            return Ok(Reaction::quiet(alloc));
        };
        if !pending.awaits(server, n) {
            return Ok(Reaction::quiet(alloc));
        }
        if !pending.has_saved() {
            return self.go_on(alloc);
        }
        let oldest = pending.oldest();
        let ask = pending.ask_of(oldest);
        if ask.remove {
            let (from, ticket, id) = (oldest.server, oldest.ticket, oldest.id);
            return self.take_up(alloc, from, ticket, id);
        }
        let reaction = copied(alloc, self.servers(), pending, ask, oldest.arriving())?;
        self.finish();
        Ok(reaction)
    }

    // Without the offer that was accepted, and with nothing saved, the first alarm that is ready
    // commits; else the synchronization waits.
    fn go_on(&mut self, alloc: Global) -> Result<Reaction, ClientFault>
        requires pending { IsSome (pending_in self.old.task) }
        requires saved { OfPending self.old (λ p. p.saved ≡ []) }
        ensures { OfPending self.old
            (λ p. Does self.old result self.new (spec.go_on self.old p [])) }
    {
        if let Some(pending) = self.pending()
            && let Some(alarm) = pending.first_due(self.clock())
        {
            let reaction = pending.commit(alloc, self.servers(), None, alarm.base, Got::Alarm)?;
            self.finish();
            return Ok(reaction);
        }
        self.wait();
        Ok(Reaction::quiet(alloc))
    }
}

// An arrival for a ticket that is not open: an offer is cancelled, and a copy ignored.
fn stray(alloc: Global, remove: bool, arriving: ArrivedTupleRef) -> Result<Reaction, ClientFault>
    ensures { (c : seen.Client)
        → Does c result c (Ok (spec.on_stray c remove (arrival_of arriving.entry))) }
{
    if !remove {
        return Ok(Reaction::quiet(alloc));
    }
    let cancel = Message::Cancel {
        ticket: arriving.ticket,
    };
    Ok(Reaction::sending(one_packet(alloc, arriving.server, cancel)?))
}

// A copy commits to its base. No offer is accepted then, so all tickets are cancelled everywhere.
fn copied(
    alloc: Global,
    servers: u32,
    pending: &Pending,
    ask: &Ask,
    arriving: ArrivedTupleRef,
) -> Result<Reaction, AllocError>
    requires { Matches ask.now.template arriving.tuple.now }
    ensures packets { IfOk result (λ r. r.packets.items ≡ cancels_but servers None pending.now) }
    ensures outcome { IfOk result (λ r. r.outcome
        ≡ Some (commitment pending.now.event ask.now.base
        (got_by_read ask.now (arrival_of arriving.entry)))) }
    ensures fault { IfOk result (λ r. r.fault ≡ None) }
{
    let (tuple, bindings) = bound(alloc, ask, arriving.tuple)?;
    let got = Got::Copied {
        server: arriving.server,
        id: arriving.id,
        tuple,
        bindings,
    };
    pending.commit(alloc, servers, None, ask.base, got)
}
