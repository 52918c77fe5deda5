//! Room for the next snapshot, made before it is needed.

ghost use Rattle.std.specs.Prelude.{◌≡◌, IfOk, IsErrOf};

use super::Durable;
use crate::fault::{ServeFault, node_fault, of_disk};
use crate::reserving::reserve;
use linda_disk::Disk;
use linda_ghost::Moment;
use linda_store::NodeFault;
use std::alloc::Global;

impl<D: Disk> Durable<D> {
    ghost use Rattle.linda_server.specs.Handled.{Rewrites, Fails, Falls};
    ghost use Rattle.linda_server.specs.Reserving.{IsReserved};

    /// Sees to it that the file of the disk that is not in use has at least `least` bytes, so that
    /// a snapshot of fewer finds room there, and no more than `most`. Closed gates are written
    /// after what it has, 4 MiB in one call at most, and synced; or it is cut to `least`. Returns
    /// how many bytes it has then: if the device takes no more, as many as it had. If it changes,
    /// what was a bank there is none any more, and a snapshot that was begun in steps is given up
    /// in any case. No client sees a change.
    ///
    /// # Errors
    ///
    /// `Down`: it was down, or it is because a device failed otherwise or memory ran out.
    pub fn reserve(&mut self, alloc: Global, least: usize, most: usize) -> Result<usize, NodeFault>
        // The state stays the same, and `Falls` says what a fault means.
        ensures rewrites { Rewrites self.old result self.new }
        ensures falls { Falls self.old result self.new }
        ensures never_full { IsErrOf result NodeFault.Full → ⊥ }
        // At Ok the bank in use is as it was, and the other file has so many bytes.
        ensures reserved { IfOk result (λ n. IsReserved n self.old.disks self.new.disks) }
    {
        match self.size_other(alloc, least, most) {
            Ok(len) => Ok(len),
            Err(fault) => Err(node_fault(fault)),
        }
    }

    // The same, and it distinguishes a device's failure from `Memory`.
    fn size_other(&mut self, alloc: Global, least: usize, most: usize) -> Result<usize, ServeFault>
        ensures rewrites { Rewrites self.old result self.new }
        ensures fails { Fails self.old result self.new }
        ensures never_full { IsErrOf result ServeFault.Full → ⊥ }
        ensures reserved { IfOk result (λ n. IsReserved n self.old.disks self.new.disks) }
    {
        if self.down {
            return Err(ServeFault::Down);
        }
        match reserve(&mut self.disks, alloc, least, most) {
            Ok(len) => {
                self.next = None;
                Ok(len)
            }
            Err(fault) => {
                self.before = Moment::of(self.store.state());
                self.down = true;
                Err(of_disk(fault))
            }
        }
    }
}
