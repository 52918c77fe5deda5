//! Giving back the room of the bank that was in use before the last snapshot.

ghost use Rattle.std.specs.Prelude.{true, OnOk, IsErrOf};

use super::Durable;
use crate::clearing::clear;
use crate::fault::{ServeFault, node_fault, of_disk};
use linda_disk::Disk;
use linda_ghost::Moment;
use linda_store::NodeFault;

impl<D: Disk> Durable<D> {
    ghost use Rattle.linda_server.specs.Handled.{Rewrites, Fails, Falls};
    ghost use Rattle.linda_server.specs.Server.{IsClearedBy};
    ghost use Rattle.linda_server.specs.Switch.{IsTrimmed};

    /// Leaves one byte of the disk that is not in use, a closed gate. A snapshot that was begun in
    /// steps is given up. It is what `trim` is built on, and distinguishes a device's failure from
    /// `Memory`.
    ///
    /// # Errors
    ///
    /// `Down`: nothing changed. `Disk` if the device failed, and `Memory` if the disk found none:
    /// the server is down.
    pub fn clear(&mut self) -> Result<(), ServeFault>
        // The state stays the same, and `Fails` says what a fault means.
        ensures rewrites { Rewrites self.old result self.new }
        ensures fails { Fails self.old result self.new }
        ensures never_full { IsErrOf result ServeFault.Full → ⊥ }
        // At Ok the bank in use is as it was, and one byte is left of the other disk.
        ensures trimmed { OnOk result (IsTrimmed self.old.disks self.new.disks) }
        // Two calls changed or synced that disk, and two more if its gate was to be closed first.
        ensures clock { OnOk result (IsClearedBy self.old.disks self.new.disks) }
    {
        if self.down {
            return Err(ServeFault::Down);
        }
        match clear(&mut self.disks) {
            Ok(()) => {
                self.next = None;
                Ok(())
            }
            Err(fault) => {
                self.before = Moment::of(self.store.state());
                self.down = true;
                Err(of_disk(fault))
            }
        }
    }

    /// Gives back the room of the disk that is not in use, as `clear` does. It takes no snapshot,
    /// and no client sees a change.
    ///
    /// # Errors
    ///
    /// `Down`: it was down, or it is because a device failed or memory ran out.
    pub fn trim(&mut self) -> Result<(), NodeFault>
        // The state stays the same, and `Falls` says what a fault means.
        ensures rewrites { Rewrites self.old result self.new }
        ensures falls { Falls self.old result self.new }
        ensures never_full { IsErrOf result NodeFault.Full → ⊥ }
        // At Ok the bank in use is as it was, and one byte is left of the other disk.
        ensures trimmed { OnOk result (IsTrimmed self.old.disks self.new.disks) }
        // Two calls changed or synced that disk, and two more if its gate was to be closed first.
        ensures clock { OnOk result (IsClearedBy self.old.disks self.new.disks) }
    {
        match self.clear() {
            Ok(()) => Ok(()),
            Err(fault) => Err(node_fault(fault)),
        }
    }
}
