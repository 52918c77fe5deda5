//! Room after the end of a bank, written ahead of its use: records that come there need no new
//! length of the file.

ghost use Rattle.std.specs.Prelude.{◌≡◌, false};
ghost use Rattle.linda_disk.specs.View.{IsDurable};
ghost use Rattle.linda_journal.specs.Preallocation.{Reaches};

use super::Bank;
use crate::kinds::CLOSED;
use linda_disk::{Disk, DiskFault, lengthen};
use std::alloc::Global;

impl<D: Disk> Bank<D> {
    ghost use Rattle.linda_journal.specs.Preallocation.{Preallocates};

    /// Sees to it that the bank's file has so many bytes, or as many as its limit allows: closed
    /// gates are written after what it has, and synced. A reader of the bank ends at the closed
    /// gate before them. Returns whether it has them. If the device does not take them, or memory
    /// runs out, the file is as it was.
    ///
    /// # Errors
    ///
    /// `Device` if the device failed, and `Memory` if the disk found none: the bank is spent.
    pub fn preallocate(&mut self, alloc: Global, to: usize) -> Result<bool, DiskFault>
        requires ready { self.old.is_spent ≡ false }
        requires durable { D.honest self.old.disk → IsDurable (D.view self.old.disk) }
        ensures { Preallocates to self.old result self.new }
    {
        self.is_spent = true;
        match reach(alloc, &mut self.disk, to.min(self.limit)) {
            Err(fault) => Err(fault),
            Ok(there) => {
                self.is_spent = false;
                Ok(there)
            }
        }
    }
}

// Sees to it that the file has so many bytes: writes closed gates after what it has, and syncs
// them.
fn reach<D: Disk>(alloc: Global, disk: &mut D, to: usize) -> Result<bool, DiskFault>
    requires { D.honest disk.old → IsDurable (D.view disk.old) }
    ensures { Reaches D.Disk to disk.old result disk.new }
{
    let at = disk.len()?;
    if to <= at {
        return Ok(true);
    }
    match vec![in alloc; CLOSED; to - at] {
        Ok(gates) => lengthen(disk, at, &gates),
        Err(_) => Ok(false),
    }
}
