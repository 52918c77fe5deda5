//! Longest waits and holds under the lock.

ghost use Rattle.std.specs.Prelude.{IfOk};
ghost use Rattle.linda_shared_listing.specs.Longest.{IsLongest};

use super::Held;
use linda_disk::Disk;
use linda_shared_listing::{LongestWaitsAndHolds, list_longest};
use std::alloc::{AllocError, Global};
use std::sync::ledger::Ledger;

impl<D: Disk, L: Ledger> Held<D, L> {
    /// The requests that wait for longest and the tuples that are held for longest: of both as many
    /// as are asked for at most, as `linda_shared_listing` bounds them. Nothing changes.
    ///
    /// # Errors
    ///
    /// `AllocError` if memory runs out.
    pub fn list_longest(
        &self,
        alloc: Global,
        limit: usize,
    ) -> Result<LongestWaitsAndHolds, AllocError>
        ensures { IfOk result (IsLongest self.now.server.store.state.bag
            self.now.server.store.soft.holds self.now.server.store.soft.waits limit) }
    {
        let server = &self.server;
        let bag = &server.state().bag;
        list_longest(alloc, bag, server.holds(), server.waits(), limit)
    }
}
