//! The tuples and the clients of the server, a piece or a page at a time.

ghost use Rattle.std.specs.Prelude.{IfOk};
ghost use Rattle.linda_shared_outbox.specs.Waiting.{waits_for};
ghost use Rattle.linda_shared_listing.specs.Listing.{IsPage};
ghost use Rattle.linda_shared_listing.specs.Clients.{IsClientPage};
ghost use Rattle.linda_shared_listing.specs.Taken.{IsTakenCount};

use super::Held;
use linda_disk::Disk;
use linda_shared_listing::{
    ClientPage, TakenCount, TuplePage, TupleQuery, count_taken, list_clients, list_tuples,
};
use std::alloc::{AllocError, Global};
use std::sync::ledger::Ledger;

impl<D: Disk, L: Ledger> Held<D, L> {
    /// The first of the tuples that are asked for, each with the request that it is held for; as
    /// `linda_shared_listing` bounds them. Nothing changes.
    ///
    /// # Errors
    ///
    /// `AllocError` if memory runs out.
    pub fn list_tuples(&self, alloc: Global, query: &TupleQuery) -> Result<TuplePage, AllocError>
        ensures { IfOk result (IsPage self.now.server.store.state.bag
            self.now.server.store.soft.holds query.now) }
    {
        let server = &self.server;
        list_tuples(alloc, server.state(), server.holds(), query)
    }

    /// The first clients from this one on that have an outbox or for which a reply is kept, as many
    /// as are asked for, as `linda_shared_listing` bounds them: each with its last number and
    /// reply, whether it has an outbox, how many tuples are held for it, and how many of its asks
    /// wait. Nothing changes.
    ///
    /// # Errors
    ///
    /// `AllocError` if memory runs out.
    pub fn list_clients(
        &self,
        alloc: Global,
        from: u32,
        limit: usize,
    ) -> Result<ClientPage, AllocError>
        ensures { IfOk result (IsClientPage self.now.server.store.state.book
            (waits_for self.now.boxes) self.now.server.store.soft.holds
            self.now.server.store.soft.waits from limit) }
    {
        let server = &self.server;
        let book = &server.state().book;
        list_clients(
            alloc,
            book,
            server.holds(),
            server.waits(),
            &self.boxes,
            from,
            limit,
        )
    }

    /// How many clients have no outbox and a kept reply that is a Taken, of those from this one on;
    /// as `linda_shared_listing` bounds how many are looked at. Nothing changes.
    pub fn count_taken(&self, from: u32) -> TakenCount
        ensures { IsTakenCount self.now.server.store.state.book (waits_for self.now.boxes) from
            result }
    {
        let server = &self.server;
        let book = &server.state().book;
        count_taken(book, &self.boxes, from)
    }
}
