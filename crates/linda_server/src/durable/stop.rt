//! A server on disks in memory as a node: it may be stopped inside any device call, and comes back
//! on what is left.

ghost use Rattle.std.specs.Prelude.{◌≡◌, true, false, IfOk, OnOk, OnErr, IsErrOf};
ghost use Rattle.linda_disk.specs.MemDisk as disk;
ghost use Rattle.linda_disk.specs.View.{LeavesNoMore};
ghost use Rattle.linda_server.specs.Disks.{AreHonest};
ghost use Rattle.linda_server.specs.Reopening.{IsReopened};

use super::Durable;
use crate::disks::Disks;
use linda_disk::{DiskFault, MemDisk, Torn};
use linda_store::{Node, NodeFault, Work};
use linda_store_state::Deed;
use linda_wire::{Message, Reply};
use std::alloc::Global;
use std::mem;

impl Durable<MemDisk> {
    // Lets so many device calls more pass on each disk. Inside the next one the machine stops.
    fn fuse(&mut self, passes: u64)
        requires { self.old.down ≡ false }
        ensures { (self.new.store ≡ self.old.store) × (self.new.limit ≡ self.old.limit)
            × (self.new.down ≡ false) × (self.new.lost.items ≡ self.old.lost.items)
            × (self.new.before.value ≡ self.old.before.value) }
    {
        self.disks.fuse(passes);
    }

    // Lets both disks of a server that is down crash, and opens it again on what is left.
    fn restart(&mut self, alloc: Global, torn: Torn) -> Result<Vec<Deed>, NodeFault>
        requires { self.old.down ≡ true }
        ensures opened { IfOk result (λ deeds. IsReopened self.old.before.value
            self.old.lost.items deeds.items self.new.store) }
        ensures up { OnOk result (self.new.down ≡ false) }
        ensures down { OnErr result ((self.new.down ≡ true)
            × (self.new.before.value ≡ self.old.before.value) × (self.new.store ≡ self.old.store)
            × (self.new.lost.items ≡ self.old.lost.items)) }
        ensures never_full { IsErrOf result NodeFault.Full → ⊥ }
    {
        self.crash(torn)?;
        self.come_back(alloc)
    }

    // Lets both disks of a server that is down crash.
    fn crash(&mut self, torn: Torn) -> Result<(), NodeFault>
        requires { self.old.down ≡ true }
        ensures same { (self.new.store ≡ self.old.store) × (self.new.down ≡ true)
            × (self.new.before.value ≡ self.old.before.value)
            × (self.new.lost.items ≡ self.old.lost.items) }
        ensures there { AreHonest (λ b. Unit {0}) (λ d. Unit {0}) self.new.disks }
        ensures never_full { IsErrOf result NodeFault.Full → ⊥ }
    {
        let (left, right) = mem::replace(&mut self.disks, Disks::Away).into_both();
        let mut left = left;
        let mut right = right;
        let crashed = crash_both(&mut left, &mut right, torn);
        self.disks = Disks::Shut { left, right };
        match crashed {
            Ok(()) => Ok(()),
            Err(_) => Err(NodeFault::Down),
        }
    }
}

impl Node for Durable<MemDisk> {
    ghost use Rattle.linda_server.specs.Node.{shown};

    ghost shown = { λ s. shown s.before.value s.store s.down s.lost.items };

    fn handle(
        &mut self,
        alloc: Global,
        client: u32,
        message: &Message,
    ) -> Result<Vec<(u32, Reply)>, NodeFault> {
        Durable::handle(self, alloc, client, message)
    }

    fn handle_all(
        &mut self,
        alloc: Global,
        messages: &[(u32, Message)],
    ) -> Result<Vec<(u32, Reply)>, NodeFault> {
        Durable::handle_all(self, alloc, messages)
    }

    fn close(&mut self, alloc: Global, client: u32) -> Result<Vec<(u32, Reply)>, NodeFault> {
        Durable::close(self, alloc, client)
    }

    fn snapshot(&mut self, alloc: Global) -> Result<(), NodeFault> {
        Durable::snapshot(self, alloc)
    }

    fn stop(
        &mut self,
        alloc: Global,
        work: Work,
        at: u64,
        torn: Torn,
    ) -> Result<Vec<Deed>, NodeFault> {
        if self.down {
            return self.restart(alloc, torn);
        }
        self.fuse(at);
        self.fall(alloc, work);
        self.restart(alloc, torn)
    }

    fn is_down(&self) -> bool {
        Durable::is_down(self)
    }
}

// Lets both disks crash.
fn crash_both(left: &mut MemDisk, right: &mut MemDisk, torn: Torn) -> Result<(), DiskFault>
    ensures left { LeavesNoMore (disk.view left.old) (disk.view left.new) }
    ensures right { LeavesNoMore (disk.view right.old) (disk.view right.new) }
{
    left.crash(torn)?;
    right.crash(torn)?;
    Ok(())
}
