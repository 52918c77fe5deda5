//! A server that threads share.

// Locks the server, calls it, lets it go, and ends all that wait if it is down. Returns what the
// call returned, and whether the server is down.
macro_rules! with_locked {
    ($shared:expr, $rt:expr, |$locked:ident| $call:expr) => {{
        let mut guard = $shared.locked.lock($rt);
        let $locked = &mut *guard;
        let answer = $call;
        let is_down = $locked.held.is_down();
        drop(guard);
        $shared.end_if_down($rt, is_down);
        (answer, is_down)
    }};
}

mod batch;
mod end;
mod greet;
mod group;
mod kinds;
mod lead;
mod leave;
mod list;
mod longest;
mod submit;

ghost use Rattle.std.specs.Prelude.{◌≡◌, false};
ghost use Rattle.linda_shared_accounts.specs.declared.limits.TheConstants.{PARTS};

use crate::batch::LeaderBatch;
use crate::locked::Locked;
pub use group::ReplySink;
use linda_disk::Disk;
use linda_shared_accounts::SharedFault;
use linda_shared_held::{Durable, Gauge, Held, Progress};
use linda_shared_queue::{Outlet, Queue, Router};
use linda_store_step::MAX_GROUP;
use linda_wire::Reply;
use std::alloc::{AllocError, Global};
use std::sync::ledger::{Blank, Ledger};
use std::sync::{Mutex, Wait};

/// A server that threads share. Order of locks: the server, the router, the queue, a mailbox. The
/// server is locked while a group is written to the disks; the router while what a group came to is
/// given out, beside the next group.
#[derive(Drop)]
pub struct Shared<D: Disk, L: Ledger> {
    locked: Mutex<Locked<D, L>>,
    router: Mutex<Router<L>>,
    queue: Mutex<Queue<L>>,
    alloc: Global,
}

impl<D: Disk, L: Ledger> Shared<D, L> {
    /// Shares a server that is up, of which nothing was reported yet.
    ///
    /// # Errors
    ///
    /// `AllocError`: nothing was made, and the server is dropped.
    pub fn new(alloc: Global, server: Durable<D>, blank: Blank) -> Result<Shared<D, L>, AllocError>
        requires up { server.down ≡ false }
        requires blank { (blank.name ≡ L.name) × (blank.parts ≡ L.parts) × (L.parts ≡ PARTS) }
    {
        let batch = LeaderBatch::new(alloc)?;
        let router = Router::new(alloc)?;
        let held = Held::new(alloc, server, blank);
        Ok(Shared {
            locked: Mutex::new(Locked {
                held,
                batch,
                is_given_up: false,
            }),
            router: Mutex::new(router),
            queue: Mutex::new(Queue::new(alloc)),
            alloc,
        })
    }

    /// The replies that are there now, in order. Never asks for the server.
    pub fn drain<R: Wait>(&self, rt: &R, outlet: &mut Outlet<L>) -> Vec<Reply> {
        outlet.drain(rt, self.alloc)
    }

    /// Waits until there is a reply, the server is down or the seat was hung up, and takes what is
    /// there, which is nothing if no reply comes any more. Never asks for the server.
    pub fn drain_wait<R: Wait>(&self, rt: &R, outlet: &mut Outlet<L>) -> Vec<Reply> {
        outlet.drain_wait(rt, self.alloc)
    }

    /// Whether the server is down.
    pub fn is_down<R: Wait>(&self, rt: &R) -> bool {
        self.locked.lock(rt).held.is_down()
    }

    /// The server counts as down from now on: for a caller that sees that what it writes is not
    /// kept.
    pub fn give_up<R: Wait>(&self, rt: &R) {
        self.locked.lock(rt).held.give_up();
        self.end_if_down(rt, true);
    }

    /// Whether a snapshot is due.
    pub fn needs_snapshot<R: Wait>(&self, rt: &R) -> bool {
        self.locked.lock(rt).held.needs_snapshot()
    }

    /// Whether a snapshot is to be taken, as `Held::snapshot_due` says: for the program that
    /// serves, and takes them.
    pub fn snapshot_due<R: Wait>(&self, rt: &R) -> bool {
        self.locked.lock(rt).held.snapshot_due()
    }

    /// Has no snapshot that pays tried before there are 1,024 records more, or records of `room`
    /// bytes, 32 MiB at most, whichever come first; one that a deed asks for which was refused for
    /// room is taken all the same. For a server that was opened, and may have gone down in one.
    pub fn defer_snapshot<R: Wait>(&self, rt: &R, room: usize) {
        self.locked.lock(rt).held.defer_snapshot(room);
    }

    /// Has bytes counted from `base` on, which the bank in use took when it was new. For a server
    /// that was opened: else they are counted from what the bank had then.
    pub fn count_from<R: Wait>(&self, rt: &R, base: usize) {
        self.locked.lock(rt).held.count_from(base);
    }

    /// The numbers of the server at one moment, for a caller that reports them to its operator.
    /// Takes no memory.
    pub fn gauge<R: Wait>(&self, rt: &R) -> Gauge {
        self.locked.lock(rt).held.gauge()
    }

    /// Sets the present second, from which on it is counted how long a tuple is held, an ask waits
    /// and a client is here. Seconds never fall; until one is set nothing is noted.
    pub fn set_second<R: Wait>(&self, rt: &R, second: u64) {
        self.locked.lock(rt).held.set_second(second);
    }

    /// How many tuples are held for the client now.
    pub fn holds_of<R: Wait>(&self, rt: &R, client: u32) -> usize {
        self.locked.lock(rt).held.holds_of(client)
    }

    /// How many clients have a mailbox here: as many as have a seat.
    pub fn mailboxes<R: Wait>(&self, rt: &R) -> usize {
        self.router.lock(rt).len()
    }

    /// Takes a snapshot.
    ///
    /// # Errors
    ///
    /// `Down`: the server is down. `Full`: nothing changed.
    pub fn snapshot<R: Wait>(&self, rt: &R) -> Result<(), SharedFault> {
        let (answer, _) = with_locked!(self, rt, |locked| locked.held.snapshot(self.alloc));
        answer
    }

    /// Copies the next clients, so many at most, for a snapshot in steps that is begun later: it
    /// walks over no client then. Returns whether nothing is left to copy, or the copy was given up
    /// as memory ran out. Nothing changes that a session sees.
    pub fn copy_clients<R: Wait>(&self, rt: &R, most: u32) -> bool {
        self.locked.lock(rt).held.copy_clients(self.alloc, most)
    }

    /// Gives up the copy of the clients, for a snapshot that is not begun after all. Nothing
    /// changes that a session sees.
    pub fn forget_copy<R: Wait>(&self, rt: &R) {
        self.locked.lock(rt).held.forget_copy();
    }

    /// Begins a snapshot in steps, between which sessions go on. It takes what was copied of the
    /// clients, if all are, and else copies all of them at once.
    ///
    /// # Errors
    ///
    /// `Down`: the server is down. `Full`: nothing changed.
    pub fn begin_snapshot<R: Wait>(&self, rt: &R) -> Result<(), SharedFault> {
        let (answer, _) = with_locked!(self, rt, |locked| locked.held.begin_snapshot(self.alloc));
        answer
    }

    /// Takes the next step of a snapshot, which writes about so many bytes at most.
    ///
    /// # Errors
    ///
    /// `Down`: the server is down.
    pub fn continue_snapshot<R: Wait>(&self, rt: &R, most: usize) -> Result<Progress, SharedFault> {
        let (answer, _) = with_locked!(
            self,
            rt,
            |locked| locked.held.continue_snapshot(self.alloc, most)
        );
        answer
    }

    /// Sees to it that the file of the bank in use has so many bytes, or as many as its limit
    /// allows; returns whether it has them. Nothing changes that a session sees.
    ///
    /// # Errors
    ///
    /// `Down`: the server is down.
    pub fn preallocate<R: Wait>(&self, rt: &R, to: usize) -> Result<bool, SharedFault> {
        let (answer, _) = with_locked!(self, rt, |locked| locked.held.preallocate(self.alloc, to));
        answer
    }

    /// From now on records are written only where the bank's file has bytes already, and the other
    /// file has as many, for the next snapshot: so a device that has no more room refuses deeds as
    /// Full, and ends no server. No session sees another change.
    pub fn keep_room<R: Wait>(&self, rt: &R) {
        self.locked.lock(rt).held.keep_room();
    }

    /// Whether the device had no more room when it was last asked, so that the bank's limit is what
    /// its file has.
    pub fn is_short<R: Wait>(&self, rt: &R) -> bool {
        self.locked.lock(rt).held.is_short()
    }

    /// Makes room up to this length of the bank in use before it is needed; returns whether it is
    /// there. If it is not, and room is kept, a snapshot is due. No session sees a change.
    pub fn extend<R: Wait>(&self, rt: &R, to: usize) -> bool {
        let (there, _) = with_locked!(self, rt, |locked| locked.held.extend(self.alloc, to));
        there
    }

    /// Looks again how much room there is, after a snapshot, or some time after there was no more.
    /// If the other file is much longer than the bank in use, it is cut. No session sees a change,
    /// but what the server finds no room for.
    pub fn renew_room<R: Wait>(&self, rt: &R) {
        let _ = with_locked!(self, rt, |locked| locked.held.renew_room(self.alloc));
    }

    /// Forgets the receipts of deeds that were reported, if there are many, and gives back the
    /// memory of some that were forgotten. Each group does so too: this is for a program that
    /// serves, in which no group may come for long. Nothing changes that a session sees.
    pub fn forget<R: Wait>(&self, rt: &R) {
        self.locked.lock(rt).forget(self.alloc, MAX_GROUP);
    }

    // No reply comes any more if the server is down.
    fn end_if_down<R: Wait>(&self, rt: &R, is_down: bool) {
        if is_down {
            self.router.lock(rt).end_all(rt);
        }
    }
}
