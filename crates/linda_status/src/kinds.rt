//! The kinds of tuples of a server, a piece at a time: others have the server between two of them.

use crate::pause::let_others;
use linda_disk::Disk;
use linda_shared::{KindPage, ListedKind, MOST_KINDS, Shared};
use linda_tuple::Atom;
use std::alloc::{AllocError, Global};
use std::sync::Wait;
use std::sync::ledger::Ledger;
use std::time::Clock;

/// The kind after which the next piece goes on, and how many kinds are to be looked at still.
#[derive(Drop)]
pub(crate) struct Kinds {
    after: Option<(Atom, usize)>,
    left: usize,
}

impl Kinds {
    /// All are to be looked at.
    pub(crate) fn new() -> Kinds {
        Kinds {
            after: None,
            left: MOST_KINDS,
        }
    }

    /// Whether no more are looked at.
    pub(crate) fn is_over(&self) -> bool {
        self.left == 0
    }

    /// The next ones; nothing if the server is down.
    ///
    /// # Errors
    ///
    /// `AllocError` if memory runs out.
    pub(crate) fn next<D: Disk, L: Ledger, R: Wait + Clock>(
        &mut self,
        rt: &R,
        alloc: Global,
        shared: &Shared<D, L>,
    ) -> Result<Option<KindPage>, AllocError> {
        if self.after.is_some() {
            let_others(rt);
        }
        let Some(page) = shared.list_kinds(rt, self.last(), self.left)? else {
            return Ok(None);
        };
        self.go_on(alloc, &page.rows)?;
        Ok(Some(page))
    }

    // The last kind that was looked at.
    fn last(&self) -> Option<(&Atom, usize)> {
        match &self.after {
            Some((tag, fields)) => Some((tag, *fields)),
            None => None,
        }
    }

    // These were looked at.
    fn go_on(&mut self, alloc: Global, rows: &[ListedKind]) -> Result<(), AllocError> {
        self.left = self.left.saturating_sub(rows.len());
        let Some(row) = rows.last() else {
            return Ok(());
        };
        self.after = Some((row.tag.try_clone(alloc)?, row.fields));
        Ok(())
    }
}
