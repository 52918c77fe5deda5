//! Tuples that a server holds, as the trace wrote them.

use linda_hold::{Holds, Request};
use std::alloc::{AllocError, Global};
use std::collections::BTreeMap;

/// The holds of a server that were written, and not yet released.
#[derive(Drop)]
pub(super) struct Held {
    by_id: BTreeMap<u64, Request>,
}

impl Held {
    /// No hold.
    pub(super) fn new(alloc: Global) -> Held {
        Held {
            by_id: BTreeMap::new(alloc),
        }
    }

    /// The server holds these now: the lines of those that it holds no more, and of those that are
    /// new, each by rising id.
    ///
    /// # Errors
    ///
    /// `AllocError` if memory runs out.
    pub(super) fn change(
        &mut self,
        alloc: Global,
        lines: &mut String,
        server: u32,
        holds: &Holds,
    ) -> Result<(), AllocError> {
        for id in self.released_ids(alloc, holds)? {
            if let Some(request) = self.by_id.remove(&id) {
                push_hold(lines, "release", server, id, request)?;
            }
        }
        for id in self.gained(alloc, holds)? {
            if let Some(request) = holds.get(id) {
                push_hold(lines, "hold", server, id, request)?;
                self.by_id.insert(id, request)?;
            }
        }
        Ok(())
    }

    // The ids that are not held any more for whom they were held, rising.
    fn released_ids(&self, alloc: Global, holds: &Holds) -> Result<Vec<u64>, AllocError> {
        let mut lost = Vec::new(alloc);
        for (id, request) in &self.by_id {
            if holds.get(*id) != Some(*request) {
                lost.push(*id)?;
            }
        }
        Ok(lost)
    }

    // The ids that are held and were not written as held, rising.
    fn gained(&self, alloc: Global, holds: &Holds) -> Result<Vec<u64>, AllocError> {
        let mut gained = Vec::new(alloc);
        for id in &holds.ids(alloc)? {
            if !self.by_id.contains_key(id) {
                gained.push(*id)?;
            }
        }
        Ok(gained)
    }
}

// The line of a hold that is new, or over.
fn push_hold(
    lines: &mut String,
    word: &str,
    server: u32,
    id: u64,
    request: Request,
) -> Result<(), AllocError> {
    let Request { client, ticket } = request;
    writeln!(lines, "{word} {server} {id} {client} {ticket}")
}
