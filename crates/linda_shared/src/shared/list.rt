//! The tuples and the clients of the server, for those who ask how it does.

use super::Shared;
use linda_disk::Disk;
use linda_shared_listing::{ClientPage, TakenCount, TuplePage, TupleQuery};
use std::alloc::AllocError;
use std::sync::Wait;
use std::sync::ledger::Ledger;

impl<D: Disk, L: Ledger> Shared<D, L> {
    /// The first of the tuples that are asked for, as they are at one moment, as
    /// `Held::list_tuples` gives them; nothing if the server is down.
    ///
    /// # Errors
    ///
    /// `AllocError` if memory runs out.
    pub fn list_tuples<R: Wait>(
        &self,
        rt: &R,
        query: &TupleQuery,
    ) -> Result<Option<TuplePage>, AllocError> {
        let guard = self.locked.lock(rt);
        if guard.held.is_down() {
            return Ok(None);
        }
        let page = guard.held.list_tuples(self.alloc, query)?;
        Ok(Some(page))
    }

    /// The first clients from this one on, as they are at one moment, as `Held::list_clients` gives
    /// them; nothing if the server is down.
    ///
    /// # Errors
    ///
    /// `AllocError` if memory runs out.
    pub fn list_clients<R: Wait>(
        &self,
        rt: &R,
        from: u32,
        limit: usize,
    ) -> Result<Option<ClientPage>, AllocError> {
        let guard = self.locked.lock(rt);
        if guard.held.is_down() {
            return Ok(None);
        }
        let page = guard.held.list_clients(self.alloc, from, limit)?;
        Ok(Some(page))
    }

    /// How many clients are away and took a tuple by their last message, of those from this one on,
    /// as they are at one moment, as `Held::count_taken` counts them; nothing if the server is
    /// down.
    pub fn count_taken<R: Wait>(&self, rt: &R, from: u32) -> Option<TakenCount> {
        let guard = self.locked.lock(rt);
        if guard.held.is_down() {
            return None;
        }
        Some(guard.held.count_taken(from))
    }
}
