//! Hosts of tests: what these ask of the server that sessions share.
//!
//! A test speaks to a host of any kind; only here it is a `Shared` over disks in memory, so that
//! the prover goes through its parts in few places.

ghost use Rattle.std.specs.Prelude.{◌≤◌, ◌<◌, length, All};
ghost use Rattle.linda_store_step.specs.declared.size.TheConstants.{MAX_BATCH};
ghost use Rattle.linda_shared_queue.specs.Seat.{IsRequest};

use crate::stand::{Kept, kept};
use linda_disk::MemDisk;
use linda_shared::{Greeted, Outlet, Progress, Receipt, Report, Seat, Shared, SharedFault};
use linda_wire::{Message, Reply};
use std::alloc::{AllocError, Global};
use std::sync::Wait;
use std::sync::ledger::Ledger;

/// What a greeting comes to.
#[derive(Drop)]
pub enum Welcome<S, O> {
    /// A seat, an outlet, and the number of the last request that is kept.
    Seated(S, O, u64),
    /// Neither, for this code and detail.
    Refused(u8, u64),
}

/// A server that sessions share, whose clients speak at such a seat, and whose replies come out at
/// such an outlet. Each call does what that of `Shared` of the same name does.
pub trait Host<S, O>: Drop {
    /// The client that has the seat.
    fn client(seat: &S) -> u32;

    /// Greets with a message.
    fn greet<R: Wait>(&self, rt: &R, hello: &Message) -> Result<Welcome<S, O>, SharedFault>;

    /// Submits a message, and gives its receipt if it was a deed.
    fn submit<R: Wait>(
        &self,
        rt: &R,
        seat: &mut S,
        message: &Message,
    ) -> Result<Option<Receipt>, SharedFault>;

    /// Submits several at once, and gives the receipts.
    fn submit_all<R: Wait>(
        &self,
        rt: &R,
        seat: &mut S,
        messages: &[Message],
    ) -> Result<Vec<Option<Receipt>>, SharedFault>
        requires some { 0 < length messages.now }
        requires few { length messages.now ≤ MAX_BATCH }
        requires requests { All IsRequest messages.now };

    /// Takes the replies that are there.
    fn drain<R: Wait>(&self, rt: &R, outlet: &mut O) -> Vec<Reply>;

    /// Takes the replies that are there, once there are some or none will come.
    fn drain_wait<R: Wait>(&self, rt: &R, outlet: &mut O) -> Vec<Reply>;

    /// A second outlet of the same session.
    fn another(outlet: &O) -> Result<O, AllocError>;

    /// Waits until there is a reply that others' messages led to, or none will come: whether one
    /// may come.
    fn wait_news<R: Wait>(&self, rt: &R, outlet: &O) -> bool;

    /// How many clients have a mailbox.
    fn mailboxes<R: Wait>(&self, rt: &R) -> usize;

    /// No reply comes out at the outlet of this seat any more, once those that are there were
    /// taken.
    fn hang_up<R: Wait>(&self, rt: &R, seat: &mut S);

    /// The session ends.
    fn leave<R: Wait>(&self, rt: &R, seat: S, outlet: O) -> Result<(), SharedFault>;

    /// Whether a snapshot pays for itself.
    fn snapshot_due<R: Wait>(&self, rt: &R) -> bool;

    /// Snapshots that pay are put off until there are records of so many bytes, or as many as make
    /// one due.
    fn defer_snapshot<R: Wait>(&self, rt: &R, room: usize);

    /// Bytes are counted from so many on, which the bank in use took when it was new.
    fn count_from<R: Wait>(&self, rt: &R, base: usize);

    /// The server writes a snapshot.
    fn snapshot<R: Wait>(&self, rt: &R) -> Result<(), SharedFault>;

    /// The server begins a snapshot in steps.
    fn begin_snapshot<R: Wait>(&self, rt: &R) -> Result<(), SharedFault>;

    /// The server takes the next step of a snapshot, which writes about so many bytes at most.
    fn continue_snapshot<R: Wait>(&self, rt: &R, most: usize) -> Result<Progress, SharedFault>;

    /// All seats come back, and the server gives its report.
    fn finish<R: Wait>(&self, rt: &R, seats: Vec<S>) -> Result<Report, SharedFault>;

    /// What the server keeps, which nobody shares any more.
    fn into_kept(self) -> Kept;

    /// The disks of the server, which nobody shares any more.
    fn into_disks(self) -> (MemDisk, MemDisk);
}

impl<L: Ledger> Host<Seat<L>, Outlet<L>> for Shared<MemDisk, L> {
    fn client(seat: &Seat<L>) -> u32 {
        seat.client()
    }

    fn greet<R: Wait>(
        &self,
        rt: &R,
        hello: &Message,
    ) -> Result<Welcome<Seat<L>, Outlet<L>>, SharedFault> {
        match Shared::greet(self, rt, hello) {
            Ok(Greeted::Welcome(seat, outlet, last)) => Ok(Welcome::Seated(seat, outlet, last)),
            Ok(Greeted::Refused(code, detail)) => Ok(Welcome::Refused(code, detail)),
            Err(fault) => Err(fault),
        }
    }

    fn submit<R: Wait>(
        &self,
        rt: &R,
        seat: &mut Seat<L>,
        message: &Message,
    ) -> Result<Option<Receipt>, SharedFault> {
        Shared::submit(self, rt, seat, message)
    }

    fn submit_all<R: Wait>(
        &self,
        rt: &R,
        seat: &mut Seat<L>,
        messages: &[Message],
    ) -> Result<Vec<Option<Receipt>>, SharedFault> {
        Shared::submit_all(self, rt, seat, messages)
    }

    fn drain<R: Wait>(&self, rt: &R, outlet: &mut Outlet<L>) -> Vec<Reply> {
        Shared::drain(self, rt, outlet)
    }

    fn drain_wait<R: Wait>(&self, rt: &R, outlet: &mut Outlet<L>) -> Vec<Reply> {
        Shared::drain_wait(self, rt, outlet)
    }

    fn another(outlet: &Outlet<L>) -> Result<Outlet<L>, AllocError> {
        outlet.another()
    }

    fn wait_news<R: Wait>(&self, rt: &R, outlet: &Outlet<L>) -> bool {
        outlet.wait_news(rt)
    }

    fn mailboxes<R: Wait>(&self, rt: &R) -> usize {
        Shared::mailboxes(self, rt)
    }

    fn hang_up<R: Wait>(&self, rt: &R, seat: &mut Seat<L>) {
        Shared::hang_up(self, rt, seat)
    }

    fn leave<R: Wait>(&self, rt: &R, seat: Seat<L>, outlet: Outlet<L>) -> Result<(), SharedFault> {
        Shared::leave(self, rt, seat, outlet)
    }

    fn snapshot_due<R: Wait>(&self, rt: &R) -> bool {
        Shared::snapshot_due(self, rt)
    }

    fn defer_snapshot<R: Wait>(&self, rt: &R, room: usize) {
        Shared::defer_snapshot(self, rt, room)
    }

    fn count_from<R: Wait>(&self, rt: &R, base: usize) {
        Shared::count_from(self, rt, base)
    }

    fn snapshot<R: Wait>(&self, rt: &R) -> Result<(), SharedFault> {
        Shared::snapshot(self, rt)
    }

    fn begin_snapshot<R: Wait>(&self, rt: &R) -> Result<(), SharedFault> {
        Shared::begin_snapshot(self, rt)
    }

    fn continue_snapshot<R: Wait>(&self, rt: &R, most: usize) -> Result<Progress, SharedFault> {
        Shared::continue_snapshot(self, rt, most)
    }

    fn finish<R: Wait>(&self, rt: &R, seats: Vec<Seat<L>>) -> Result<Report, SharedFault> {
        Shared::finish(self, rt, seats)
    }

    fn into_kept(self) -> Kept {
        let server = self.into_server();
        kept(&server)
    }

    fn into_disks(self) -> (MemDisk, MemDisk) {
        self.into_server().into_disks()
    }
}
