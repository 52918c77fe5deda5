//! Longest waits and holds of the server.

use super::Shared;
use linda_disk::Disk;
use linda_shared_listing::LongestWaitsAndHolds;
use std::alloc::AllocError;
use std::sync::Wait;
use std::sync::ledger::Ledger;

impl<D: Disk, L: Ledger> Shared<D, L> {
    /// What waits and what is held for longest, as it is at one moment, as `Held::list_longest`
    /// gives it; nothing if the server is down.
    ///
    /// # Errors
    ///
    /// `AllocError` if memory runs out.
    pub fn list_longest<R: Wait>(
        &self,
        rt: &R,
        limit: usize,
    ) -> Result<Option<LongestWaitsAndHolds>, AllocError> {
        let guard = self.locked.lock(rt);
        if guard.held.is_down() {
            return Ok(None);
        }
        let found = guard.held.list_longest(self.alloc, limit)?;
        Ok(Some(found))
    }
}
