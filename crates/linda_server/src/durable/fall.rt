//! A call that is cut off, and the server coming back on what its disks read.

ghost use Rattle.std.specs.Prelude.{◌≡◌, ◌↔◌, [], true, false, IfOk, OnOk, OnErr, IsErrOf};
ghost use Rattle.linda_server.specs.Server.{BothHonest};
ghost use Rattle.linda_server.specs.Reopening.{has_done, IsReopened};

use super::Durable;
use crate::disks::Disks;
use linda_bag::Bag;
use linda_disk::Disk;
use linda_store::{NodeFault, Work};
use linda_store_state::{Deed, State};
use std::alloc::Global;
use std::mem;

impl<D: Disk> Durable<D> {
    ghost use Rattle.linda_store.specs.Node.{MayRemain, IsBatch, in_hand};
    ghost use Rattle.linda_server.specs.Lives.{StaysOn};
    ghost use Rattle.linda_server.specs.Node.{shown};

    /// Begins the work, of which nothing is sent, and counts as down from then on, no matter how
    /// the work ends.
    pub(super) fn fall(&mut self, alloc: Global, work: Work)
        requires up { self.old.down ≡ false }
        requires batch { IsBatch work }
        ensures down { self.new.down ≡ true }
        ensures before { self.new.before.value ≡ self.old.store.state }
        ensures lost { MayRemain
            (shown self.old.before.value self.old.store self.old.down self.old.lost.items)
            (in_hand work) self.new.lost.items }
    {
        let _ = self.store.is_spent();
        match work {
            Work::Messages(messages) => match self.serve_all(alloc, &messages) {
                Ok(served) => {
                    self.down = true;
                    self.lost = served.into_deeds();
                }
                Err(_) => self.give_up(),
            },
            Work::Snapshot => {
                let _ = self.snapshot(alloc);
                self.give_up();
            }
        }
    }

    /// Counts as down from now on. It is for a caller that has no memory to pass on what a call
    /// returned, and so may not go on. A server that was up goes down in the state that it has, and
    /// none of its deeds is in doubt: opened again on its disks it has that state. One that was
    /// down is as before. Makes no device call, and takes no memory.
    pub fn give_up(&mut self)
        ensures down { self.new.down ≡ true }
        ensures up { self.old.down ≡ false
            → (self.new.before.value ≡ self.old.store.state) × (self.new.lost.items ≡ []) }
        ensures was_down { self.old.down ≡ true → self.new ≡ self.old }
        ensures same { (self.new.store ≡ self.old.store) × (self.new.disks ≡ self.old.disks)
            × (self.new.limit ≡ self.old.limit) }
        ensures honest { BothHonest self.old.disks ↔ BothHonest self.new.disks }
        // Every life of the server goes on by it.
        ensures life { StaysOn self.old self.new }
    {
        if !self.down {
            self.begin();
        }
    }

    /// Opens a server that is down again on what its disks read, and gives the deeds of the call in
    /// which it went down, if they are there.
    ///
    /// # Errors
    ///
    /// `Down` if it could not be opened: it is down as before.
    pub(super) fn come_back(&mut self, alloc: Global) -> Result<Vec<Deed>, NodeFault>
        requires { self.old.down ≡ true }
        ensures opened { BothHonest self.old.disks
            → IfOk result (λ deeds. IsReopened self.old.before.value self.old.lost.items
            deeds.items self.new.store) }
        ensures up { OnOk result (self.new.down ≡ false) }
        ensures down { OnErr result ((self.new.down ≡ true)
            × (self.new.before.value ≡ self.old.before.value) × (self.new.store ≡ self.old.store)
            × (self.new.lost.items ≡ self.old.lost.items)) }
        ensures never_full { IsErrOf result NodeFault.Full → ⊥ }
    {
        let (left, right) = mem::replace(&mut self.disks, Disks::Away).into_both();
        match Durable::open(alloc, left, right, self.limit) {
            Err((_, left, right)) => {
                self.disks = Disks::Shut { left, right };
                Err(NodeFault::Down)
            }
            Ok(server) => {
                let Durable { store, disks, .. } = server;
                self.store = store;
                self.disks = disks;
                self.next = None;
                self.copy = None;
                self.down = false;
                let lost = mem::replace(&mut self.lost, Vec::new(alloc));
                if has_done(self.store.state(), &lost) {
                    return Ok(lost);
                }
                Ok(Vec::new(alloc))
            }
        }
    }
}

// Whether the last of these deeds is done in the state.
fn has_done<B: Bag>(state: &State<B>, deeds: &[Deed]) -> bool
    ensures { result ≡ has_done state.now deeds.now }
{
    match deeds.last() {
        None => false,
        Some(last) => last.number() <= state.book.last(last.client()),
    }
}
