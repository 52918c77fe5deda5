//! Outlets, where the replies of a session come out.

ghost use Rattle.std.specs.Prelude.{◌≡◌, IfOk};
ghost use Rattle.std.specs.Arc.{arc_value};

use crate::mailbox::Mailbox;
use linda_wire::Reply;
use std::alloc::{AllocError, Global};
use std::sync::ledger::Ledger;
use std::sync::{Arc, Wait};

/// Where the replies of a session come out. A thread that reads here never asks for the server.
#[derive(Drop)]
pub struct Outlet<L: Ledger> {
    mailbox: Arc<Mailbox<L>, Global>,
}

impl<L: Ledger> Outlet<L> {
    /// What comes out of this mailbox.
    pub fn new(mailbox: Arc<Mailbox<L>, Global>) -> Outlet<L>
        ensures { (arc_value result.mailbox).client ≡ (arc_value mailbox).client }
    {
        Outlet { mailbox }
    }

    /// A second outlet of the same session, for another thread. Each reply comes out of one of
    /// them.
    ///
    /// # Errors
    ///
    /// `AllocError`: nothing was made.
    pub fn another(&self) -> Result<Outlet<L>, AllocError>
        ensures { IfOk result (λ o. (arc_value o.mailbox).client
            ≡ (arc_value self.now.mailbox).client) }
    {
        let mailbox = Arc::try_clone(&self.mailbox)?;
        Ok(Outlet { mailbox })
    }

    /// The replies that are there now, in order. Takes no memory.
    pub fn drain<R: Wait>(&mut self, rt: &R, alloc: Global) -> Vec<Reply> {
        self.mailbox.drain(rt, alloc)
    }

    /// Waits until there is a reply, the server is down or the seat was hung up; then takes what is
    /// there. So it returns no replies if none comes any more.
    pub fn drain_wait<R: Wait>(&mut self, rt: &R, alloc: Global) -> Vec<Reply> {
        self.mailbox.drain_wait(rt, alloc)
    }

    /// Waits until there is a reply that others' messages led to, the server is down or the seat
    /// was hung up, and takes nothing. Returns whether a reply may come. It is for a thread that
    /// writes beside one that submits, if that one writes what its own messages led to.
    pub fn wait_news<R: Wait>(&self, rt: &R) -> bool {
        self.mailbox.wait_news(rt)
    }

    /// No reply comes any more, as after a connection was lost.
    pub fn end<R: Wait>(&self, rt: &R) {
        self.mailbox.end(rt);
    }
}
