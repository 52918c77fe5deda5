//! Room on the bank in use, written while nobody waits for it.

ghost use Rattle.std.specs.Prelude.{◌≡◌, IfOk, IsErrOf};

use super::Durable;
use crate::fault::{ServeFault, node_fault, of_disk};
use crate::preallocation::preallocate;
use linda_disk::Disk;
use linda_ghost::Moment;
use linda_store::NodeFault;
use std::alloc::Global;

impl<D: Disk> Durable<D> {
    ghost use Rattle.linda_server.specs.Handled.{Rewrites, Fails, Falls};
    ghost use Rattle.linda_server.specs.Preallocation.{IsAhead};

    /// Sees to it that the file of the bank in use has so many bytes, or as many as its limit
    /// allows: closed gates are written after what it has, and synced, so that records that come
    /// there need no new length of the file. Returns whether it has them. If the device does not
    /// take them, or memory runs out, the file is as it was, and the server goes on. No client sees
    /// a change, and a snapshot in steps comes to the same.
    ///
    /// # Errors
    ///
    /// `Down`: it was down, or it is because a device failed otherwise or memory ran out.
    pub fn preallocate(&mut self, alloc: Global, to: usize) -> Result<bool, NodeFault>
        // The state stays the same, and `Falls` says what a fault means.
        ensures rewrites { Rewrites self.old result self.new }
        ensures falls { Falls self.old result self.new }
        ensures never_full { IsErrOf result NodeFault.Full → ⊥ }
        // At Ok the bank in use is the same, with more closed gates after its end or none, and the
        // other disk is as it was.
        ensures ahead { IfOk result (λ b. IsAhead to b self.old.disks self.new.disks) }
        ensures next { self.new.next ≡ self.old.next }
    {
        match self.lengthen(alloc, to) {
            Ok(there) => Ok(there),
            Err(fault) => Err(node_fault(fault)),
        }
    }

    /// Sees to it that the file of the bank in use has so many bytes. It is what `preallocate` is
    /// built on, and distinguishes a device's failure from `Memory`.
    ///
    /// # Errors
    ///
    /// `Down`: it was down. `Disk` if the device failed otherwise, and `Memory` if the disk found
    /// none: the server is down.
    pub fn lengthen(&mut self, alloc: Global, to: usize) -> Result<bool, ServeFault>
        // The state stays the same, and `Fails` says what a fault means.
        ensures rewrites { Rewrites self.old result self.new }
        ensures fails { Fails self.old result self.new }
        ensures never_full { IsErrOf result ServeFault.Full → ⊥ }
        // At Ok the bank in use is the same, with more closed gates after its end or none, and the
        // other disk is as it was.
        ensures ahead { IfOk result (λ b. IsAhead to b self.old.disks self.new.disks) }
        ensures next { self.new.next ≡ self.old.next }
    {
        if self.down {
            return Err(ServeFault::Down);
        }
        match preallocate(&mut self.disks, alloc, to) {
            Ok(there) => {
                // It is up, as it was.
                self.down = false;
                Ok(there)
            }
            Err(fault) => {
                self.before = Moment::of(self.store.state());
                self.down = true;
                Err(of_disk(fault))
            }
        }
    }
}
