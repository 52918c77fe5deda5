//! Status of a server over HTTP, beside the connections that it serves.
//!
//! - A `StatusPages` has the pages, which it spells from the server and what happened at it.
//! - A `StatusServer` is the `HttpServer` of linda_net_http that answers by them.

mod status_server;

use linda_disk::Disk;
pub use linda_net_http::{Listener, PageQuery, PageStatus};
use linda_net_marks::CounterValues;
use linda_shared::Shared;
pub use status_server::StatusServer;
use std::alloc::AllocError;
use std::sync::Wait;
use std::sync::ledger::Ledger;
use std::time::Clock;

/// Who has the pages that are asked for.
pub trait StatusPages {
    /// Writes the page that is asked for after what is there, and returns of which kind it is; or
    /// why there is none.
    ///
    /// # Errors
    ///
    /// Memory ran out: some of the page may be there.
    fn spell<D: Disk, L: Ledger, R: Wait + Clock>(
        &self,
        rt: &R,
        shared: &Shared<D, L>,
        tally: &CounterValues,
        asked: PageQuery<'_>,
        page: &mut String,
    ) -> Result<PageStatus, AllocError>;
}

/// The listener at which the status is asked for, and who has the pages.
#[derive(Drop)]
pub struct Status<A: StatusPages> {
    pub listener: Listener,
    pub teller: A,
}
