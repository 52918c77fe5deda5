//! A snapshot: the state in few bytes, on the disk that was not in use.

ghost use Rattle.std.specs.Prelude.{◌≡◌, true, OnOk, IsErrOf};
ghost use Rattle.linda_server.specs.Server.{IsRenewedBy};

use super::Durable;
use crate::fault::{ServeFault, node_fault};
use crate::renewal::renew;
use linda_disk::Disk;
use linda_ghost::Moment;
use linda_store::NodeFault;
use std::alloc::Global;

impl<D: Disk> Durable<D> {
    ghost use Rattle.linda_server.specs.Handled.{Rewrites, Fails, Falls, HasNoNextBank};
    ghost use Rattle.linda_server.specs.Switch.{IsSwitched, snapshot_calls};

    /// Writes a snapshot of the state as a new bank onto the disk that is not in use; from then on
    /// that bank is in use. One that was begun in steps is given up. It is what `snapshot` is built
    /// on, and distinguishes a device's failure from `Memory`.
    ///
    /// # Errors
    ///
    /// `Down`, then `Full` if the new bank would pass the limit or no generation is left: nothing
    /// changed. `Disk` if the device failed, and `Memory`: the server is down.
    pub fn renew(&mut self, alloc: Global) -> Result<(), ServeFault>
        // The state stays the same, and `Fails` says what a fault means.
        ensures rewrites { Rewrites self.old result self.new }
        ensures fails { Fails self.old result self.new }
        // At Ok the other disk holds the bank in use, of the next generation and without a record.
        ensures switched { OnOk result (IsSwitched self.old.disks self.new.disks) }
        // It is five device calls, and one for each piece in which the new bank is written; two
        // fewer if the disk's first gate was closed already.
        ensures clock { OnOk result (IsRenewedBy (snapshot_calls self.old.store.state)
            self.old.disks self.new.disks) }
        // It is Full only if there is no next bank for the state, and nothing changed then; at Ok
        // there is one.
        ensures full { IsErrOf result ServeFault.Full → (self.new ≡ self.old)
            × HasNoNextBank self.old }
        ensures room { OnOk result (HasNoNextBank self.old → ⊥) }
    {
        if self.down {
            return Err(ServeFault::Down);
        }
        match renew(&mut self.disks, alloc, self.store.state()) {
            Ok(()) => {
                self.next = None;
                Ok(())
            }
            Err(fault) => {
                if fault == ServeFault::Full {
                    return Err(fault);
                }
                self.before = Moment::of(self.store.state());
                self.down = true;
                Err(fault)
            }
        }
    }

    /// Takes a snapshot, as `renew` does. No client sees a change.
    ///
    /// # Errors
    ///
    /// `Full` if the new bank would pass the limit or no generation is left, and nothing changed;
    /// `Down`: it was down, or it is because a device failed or memory ran out.
    pub fn snapshot(&mut self, alloc: Global) -> Result<(), NodeFault>
        // The state stays the same, and `Falls` says what a fault means.
        ensures rewrites { Rewrites self.old result self.new }
        ensures falls { Falls self.old result self.new }
        // At Ok the other disk holds the bank in use, of the next generation and without a record.
        ensures switched { OnOk result (IsSwitched self.old.disks self.new.disks) }
        // It is Full only if there is no next bank for the state, and nothing changed then; at Ok
        // there is one.
        ensures full { IsErrOf result NodeFault.Full → (self.new ≡ self.old)
            × HasNoNextBank self.old }
        ensures room { OnOk result (HasNoNextBank self.old → ⊥) }
    {
        match self.renew(alloc) {
            Ok(()) => Ok(()),
            Err(fault) => Err(node_fault(fault)),
        }
    }
}
