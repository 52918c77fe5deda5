//! Requests by their client and their ticket: which number each has.

ghost use Rattle.std.specs.Prelude.{◌≡◌, ℕ, None, Some, IfSome, IfNone, IfOk, OnOk, OnErr, IsSome};
ghost use Rattle.std.specs.Ordering.{nat_cmp};
ghost use Rattle.std.specs.BTreeMap as tree;
ghost use Rattle.std.specs.BTreeSet.{contains};
ghost use Rattle.std.specs.List.{list_any};
ghost use Rattle.linda_bag.specs.Filing.{no_rows, rows_at, HasIds};
ghost use Rattle.linda_hold.specs.declared.request.Request.{Request};
ghost use Rattle.linda_hold.specs.Request.{request_of};
ghost use Rattle.linda_hold.specs.TicketIndex.{Requests, HasNames, AreUsed, IsCount, Sets};
ghost use Rattle.linda_hold.specs.TicketIndex.{number_at};
ghost use Rattle.linda_hold.specs.TicketIndex.{client_of};

use crate::request::Request;
use std::alloc::{AllocError, Global};
use std::collections::{BTreeMap, BTreeSet};

/// The numbers of requests: those of each client by their tickets. A client without a request is
/// not there.
#[derive(Drop)]
pub(crate) struct TicketIndex {
    pub(crate) by_client: BTreeMap<u32, BTreeMap<u64, u64>>,
}

impl TicketIndex {
    /// No requests. Takes no memory until one is named.
    pub(crate) fn empty(alloc: Global) -> TicketIndex
        ensures { HasNames result no_rows }
    {
        TicketIndex {
            by_client: BTreeMap::new(alloc),
        }
    }

    /// The number of the request.
    pub(crate) fn number_of(&self, request: Request) -> Option<u64>
        ensures { result ≡ number_at self.now.by_client request }
    {
        match self.by_client.get(&request.client) {
            Some(tickets) => tickets.get(&request.ticket).copied(),
            None => None,
        }
    }

    /// How many requests of the client have a number. It walks over none of them, and takes no
    /// memory.
    pub(crate) fn count_of(&self, client: u32) -> usize
        ensures { (requests : Requests) → HasNames self.now requests
            → IsCount client requests result }
    {
        match self.by_client.get(&client) {
            Some(tickets) => tickets.len(),
            None => 0,
        }
    }

    /// The least ticket of the client's requests; `None` if it has none.
    pub(crate) fn first_ticket(&self, client: u32) -> Option<u64>
        ensures some { IfSome result (λ ticket.
            IsSome (number_at self.now.by_client (request_of client ticket))) }
        ensures none { IfNone result ((ticket : ℕ)
            → number_at self.now.by_client (request_of client ticket) ≡ None) }
    {
        match self.by_client.get(&client) {
            Some(tickets) => {
                let (ticket, _) = tickets.first_key_value()?;
                Some(*ticket)
            }
            None => None,
        }
    }

    /// The numbers of the client's requests.
    ///
    /// # Errors
    ///
    /// `AllocError` if memory runs out.
    pub(crate) fn of_client(&self, alloc: Global, client: u32) -> Result<BTreeSet<u64>, AllocError>
        ensures { IfOk result (λ numbers. (requests : Requests) → HasNames self.now requests
            → HasIds numbers (rows_at nat_cmp client_of client requests)) }
    {
        match self.by_client.get(&client) {
            Some(tickets) => numbers_of(alloc, tickets),
            None => Ok(BTreeSet::new(alloc)),
        }
    }

    /// Gives the number to the request, which had none.
    ///
    /// # Errors
    ///
    /// `AllocError` if memory runs out, and then each request has its number as before.
    pub(crate) fn put(
        &mut self,
        alloc: Global,
        number: u64,
        request: Request,
    ) -> Result<(), AllocError>
        ensures ok { OnOk result (Sets (number_at self.old.by_client) (number_at self.new.by_client)
            request (Some number)) }
        ensures err { OnErr result ((q : Request)
            → number_at self.new.by_client q ≡ number_at self.old.by_client q) }
        ensures used { AreUsed self.old.by_client → AreUsed self.new.by_client }
    {
        if let Some(tickets) = self.by_client.get_mut(&request.client) {
            return give(tickets, request.ticket, number);
        }
        let mut tickets = BTreeMap::new(alloc);
        give(&mut tickets, request.ticket, number)?;
        self.by_client.insert(request.client, tickets)?;
        Ok(())
    }

    /// Takes the number from the request; if it has none, nothing changes.
    pub(crate) fn remove(&mut self, request: Request)
        ensures gone { Sets (number_at self.old.by_client) (number_at self.new.by_client)
            request None }
        ensures used { AreUsed self.old.by_client → AreUsed self.new.by_client }
    {
        let Some(tickets) = self.by_client.get_mut(&request.client) else {
            return;
        };
        tickets.remove(&request.ticket);
        if tickets.is_empty() {
            self.by_client.remove(&request.client);
        }
    }
}

// Gives the number to the ticket.
fn give(tickets: &mut BTreeMap<u64, u64>, ticket: u64, number: u64) -> Result<(), AllocError>
    ensures ok { OnOk result (Sets (tree.get nat_cmp tickets.old) (tree.get nat_cmp tickets.new)
        ticket (Some number)) }
    ensures err { OnErr result (tickets.new.entries ≡ tickets.old.entries) }
{
    tickets.insert(ticket, number)?;
    Ok(())
}

// The numbers of the tickets.
fn numbers_of(alloc: Global, tickets: &BTreeMap<u64, u64>) -> Result<BTreeSet<u64>, AllocError>
    ensures has { IfOk result (λ numbers. (q : ℕ)
        → contains nat_cmp numbers q
        ≡ list_any (tree.is_at (nat_cmp q)) (tree.values tickets.now)) }
    ensures ordered { tree.IsOrdered nat_cmp tickets.now }
{
    let mut numbers = BTreeSet::new(alloc);
    for number in tickets.values() {
        numbers.insert(*number)?;
    }
    Ok(numbers)
}
