//! Index of the requests that wait: by themselves, by their client, and by what they ask for.

ghost use Rattle.std.specs.Prelude.{◌≡◌, None, Some, OnOk, OnErr};
ghost use Rattle.linda_bag.specs.Filing.{no_rows, Refiles};
ghost use Rattle.linda_hold.specs.TicketIndex.{number_at};
ghost use Rattle.linda_hold.specs.Index.{HasWaits};

use crate::asked::Asked;
use crate::tag_index::{TagIndex, Wait};
use crate::ticket_index::TicketIndex;
use linda_bag::IdIndex;
use std::alloc::{AllocError, Global};

/// The numbers of requests that wait.
#[derive(Drop)]
pub(crate) struct Index {
    pub(crate) ticket_index: TicketIndex,
    pub(crate) tag_index: TagIndex,
}

impl Index {
    /// No requests. Takes no memory until one is put in.
    pub(crate) fn empty(alloc: Global) -> Index
        ensures { HasWaits result no_rows }
    {
        Index {
            ticket_index: TicketIndex::empty(alloc),
            tag_index: IdIndex::<Asked>::empty(alloc),
        }
    }

    /// Gives the number, which no wait has, to this one.
    ///
    /// # Errors
    ///
    /// `AllocError` if memory runs out, and then each wait is found as before.
    pub(crate) fn put(&mut self, alloc: Global, number: u64, wait: &Wait) -> Result<(), AllocError>
        requires { number_at self.old.ticket_index.by_client wait.now.0 ≡ None }
        ensures ok { OnOk result (Refiles (HasWaits self.old) (HasWaits self.new)
            number None (Some wait.now)) }
        ensures err { OnErr result (Refiles (HasWaits self.old) (HasWaits self.new)
            number None None) }
    {
        self.ticket_index.put(alloc, number, wait.0)?;
        match self.tag_index.put(alloc, number, None, &wait.1) {
            Ok(()) => Ok(()),
            Err(error) => {
                self.ticket_index.remove(wait.0);
                Err(error)
            }
        }
    }

    /// Takes the number from the wait, which has it.
    pub(crate) fn remove(&mut self, number: u64, wait: &Wait)
        ensures { Refiles (HasWaits self.old) (HasWaits self.new) number (Some wait.now) None }
    {
        self.ticket_index.remove(wait.0);
        self.tag_index.remove(number, &wait.1);
    }
}
