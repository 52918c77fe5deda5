//! Kinds of the server's tuples: how many there are of each tag and number of fields.

use super::Shared;
use linda_disk::Disk;
use linda_shared_listing::KindPage;
use linda_tuple::Atom;
use std::alloc::AllocError;
use std::sync::Wait;
use std::sync::ledger::Ledger;

impl<D: Disk, L: Ledger> Shared<D, L> {
    /// The first kinds of tuples after this one, or of all, as they are at one moment, as
    /// `Held::list_kinds` gives them; nothing if the server is down.
    ///
    /// # Errors
    ///
    /// `AllocError` if memory runs out.
    pub fn list_kinds<R: Wait>(
        &self,
        rt: &R,
        after: Option<(&Atom, usize)>,
        limit: usize,
    ) -> Result<Option<KindPage>, AllocError> {
        let guard = self.locked.lock(rt);
        if guard.held.is_down() {
            return Ok(None);
        }
        let page = guard.held.list_kinds(self.alloc, after, limit)?;
        Ok(Some(page))
    }
}
