//! Kinds of the server's tuples: how many there are of each tag and number of fields.

ghost use Rattle.std.specs.Prelude.{IfOk};
ghost use Rattle.linda_shared_listing.specs.Kinds.{head_in, IsKindPage};

use super::Held;
use linda_disk::Disk;
use linda_shared_listing::{KindPage, list_kinds};
use linda_tuple::Atom;
use std::alloc::{AllocError, Global};
use std::sync::ledger::Ledger;

impl<D: Disk, L: Ledger> Held<D, L> {
    /// The first kinds of tuples after this one, or of all, by tags and then by numbers of fields,
    /// each with how many tuples are of it: as many as are asked for at most, as
    /// `linda_shared_listing` bounds them. Nothing changes.
    ///
    /// # Errors
    ///
    /// `AllocError` if memory runs out.
    pub fn list_kinds(
        &self,
        alloc: Global,
        after: Option<(&Atom, usize)>,
        limit: usize,
    ) -> Result<KindPage, AllocError>
        ensures { IfOk result
            (IsKindPage self.now.server.store.state.bag (head_in after.entry) limit) }
    {
        let state = self.server.state();
        list_kinds(alloc, &state.bag, after, limit)
    }
}
