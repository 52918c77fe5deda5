//! Station that answers questions about the server over HTTP.

use super::{PageQuery, PageStatus, Status, StatusPages};
use linda_disk::Disk;
use linda_net_http::{HttpServer, PageSource};
use linda_net_marks::Counters;
use linda_shared::Shared;
use std::alloc::{AllocError, Global};
use std::io;
use std::net::Net;
use std::sync::ledger::Ledger;
use std::sync::{Mutex, Wait};
use std::time::Clock;

/// The HTTP server at which the status is asked for, and who has the pages.
#[derive(Drop)]
pub struct StatusServer<A: StatusPages> {
    server: HttpServer,
    teller: A,
}

impl<A: StatusPages + Drop> StatusServer<A> {
    /// Nobody asked yet.
    ///
    /// # Errors
    ///
    /// The system has no room for it, or there is no memory.
    pub fn open<R: Net>(rt: &R, alloc: Global, status: Status<A>) -> io::Result<StatusServer<A>> {
        let Status { listener, teller } = status;
        let server = HttpServer::open(rt, alloc, listener)?;
        Ok(StatusServer { server, teller })
    }

    /// Answers until it is over.
    pub fn run<D: Disk, L: Ledger, R: Wait + Clock>(
        self,
        rt: &R,
        shared: &Shared<D, L>,
        counters: &Counters,
        is_over: &Mutex<bool>,
    ) {
        let StatusServer { server, teller } = self;
        let pages = StatusSource {
            shared,
            counters,
            teller: &teller,
        };
        server.run(rt, &pages, is_over);
    }
}

// The pages of a teller, with the server and what happened at it.
#[derive(Drop)]
struct StatusSource<'a, D: Disk, L: Ledger, A: StatusPages> {
    shared: &'a Shared<D, L>,
    counters: &'a Counters,
    teller: &'a A,
}

impl<'a, D: Disk, L: Ledger, A: StatusPages> PageSource for StatusSource<'a, D, L, A> {
    ghost tells = { λ self path query told old new. Unit {0} };

    fn spell<R: Wait + Clock>(
        &self,
        rt: &R,
        asked: PageQuery<'_>,
        page: &mut String,
    ) -> Result<PageStatus, AllocError> {
        let tally = self.counters.tally();
        self.teller.spell(rt, self.shared, &tally, asked, page)
    }
}
