//! Room on the bank in use, written ahead of its use.

ghost use Rattle.std.specs.Prelude.{◌≡◌, true, IfOk, OnOk};
ghost use Rattle.linda_store_state.specs.State.{State};
ghost use Rattle.linda_server.specs.Preallocation.{IsUsedDurable, IsAhead};
ghost use Rattle.linda_server.specs.Server.{is_usable, RunsOnBoth, IsBesideStill};

use crate::disks::Disks;
use linda_disk::{Disk, DiskFault};
use linda_journal::Bank;
use std::alloc::Global;

/// Sees to it that the file of the bank in use has so many bytes, or as many as its limit allows:
/// closed gates after what it has. Returns whether it has them; else it is as it was. The other
/// disk is not touched.
///
/// # Errors
///
/// `Device` if the device failed, and `Memory` if the disk found none: the bank is not to be used.
pub(crate) fn preallocate<D: Disk>(
    disks: &mut Disks<Bank<D>, D>,
    alloc: Global,
    to: usize,
) -> Result<bool, DiskFault>
    requires ready { is_usable disks.old ≡ true }
    requires durable { IsUsedDurable disks.old }
    // Crashes at any moment leave the state, whichever it is.
    ensures runs { (st : State) → RunsOnBoth (Unit {0}) st DiskFault.Device disks.old result
        disks.new }
    ensures ahead { IfOk result (λ b. IsAhead to b disks.old disks.new) }
    ensures beside { OnOk result (IsBesideStill disks.old disks.new) }
{
    match disks {
        Disks::InUse(pair) => match pair.bank.preallocate(alloc, to) {
            Ok(there) => Ok(there),
            Err(fault) => Err(fault),
        },
        Disks::Shut { .. } | Disks::Away => unreachable!(),
    }
}
