//! Arrivals: offers and copies that servers sent for the tickets of a synchronization.

ghost use Rattle.std.specs.Prelude.{◌≡◌, IfOk};
ghost use Rattle.linda_wire.specs.declared.message.Message.TheVariants as messages;
ghost use Rattle.linda_client.specs.ArrivedTuple.{arrival_of};
ghost use Rattle.linda_client.specs.Packets.{is_of};
ghost use Rattle.linda_client.specs.Pending.{is_answer, same_arrival};

use linda_tuple::Tuple;
use linda_wire::Message;
use std::alloc::{AllocError, Global};

/// A tuple that a server offered for a ticket, or a copy of one that it sent. Which of the two it
/// is follows from the ticket: an input is offered tuples, and a read is sent copies.
#[derive(Drop)]
pub(crate) struct ArrivedTuple {
    pub(crate) server: u32,
    pub(crate) ticket: u64,
    pub(crate) id: u64,
    pub(crate) tuple: Tuple,
}

/// The offer that the client accepted by its message `n`, which the server has not answered yet.
#[derive(Clone, Copy)]
pub(crate) struct PendingAccept {
    pub(crate) server: u32,
    pub(crate) n: u64,
    pub(crate) ticket: u64,
    pub(crate) id: u64,
}

/// An arrival as a reply reports it, before it is kept.
#[derive(Clone, Copy)]
pub(crate) struct ArrivedTupleRef<'a> {
    pub(crate) server: u32,
    pub(crate) ticket: u64,
    pub(crate) id: u64,
    pub(crate) tuple: &'a Tuple,
}

impl ArrivedTuple {
    /// Whether the arrival is of this server and ticket.
    pub(crate) fn is_of(&self, server: u32, ticket: u64) -> bool
        ensures { result ≡ is_of (server, ticket) self.now }
    {
        self.server == server && self.ticket == ticket
    }

    /// Whether the arrival is the same as another: of one server, for one ticket, of one id.
    pub(crate) fn is_same_arrival(&self, arriving: ArrivedTupleRef) -> bool
        ensures { result ≡ same_arrival (arrival_of arriving.entry) self.now }
    {
        arriving.server == self.server && arriving.ticket == self.ticket && arriving.id == self.id
    }
}

impl ArrivedTuple {
    /// The arrival, as it was reported.
    pub(crate) fn arriving(&self) -> ArrivedTupleRef<'_>
        ensures { arrival_of result ≡ self.now }
    {
        ArrivedTupleRef::new(self.server, self.ticket, self.id, &self.tuple)
    }
}

impl PendingAccept {
    /// Whether an answer to message `n` of this server is for the accepted offer.
    pub(crate) fn is_answer(&self, server: u32, n: u64) -> bool
        ensures { result ≡ is_answer self.now server n }
    {
        self.server == server && self.n == n
    }

    /// The Accept of the offer.
    pub(crate) fn message(&self) -> Message
        ensures { result ≡ messages.Accept self.now.n self.now.ticket self.now.id }
    {
        Message::Accept {
            n: self.n,
            ticket: self.ticket,
            id: self.id,
        }
    }
}

impl<'a> ArrivedTupleRef<'a> {
    /// The arrival of this tuple.
    pub(crate) fn new(server: u32, ticket: u64, id: u64, tuple: &'a Tuple) -> ArrivedTupleRef<'a>
        ensures { arrival_of result
            ≡ record { server = server; ticket = ticket; id = id; tuple = tuple.now } }
    {
        ArrivedTupleRef {
            server,
            ticket,
            id,
            tuple,
        }
    }

    /// The arrival with memory of its own.
    pub(crate) fn to_arrival(self, alloc: Global) -> Result<ArrivedTuple, AllocError>
        ensures { IfOk result (λ a. a ≡ arrival_of self.entry) }
    {
        Ok(ArrivedTuple {
            server: self.server,
            ticket: self.ticket,
            id: self.id,
            tuple: self.tuple.try_clone(alloc)?,
        })
    }
}
