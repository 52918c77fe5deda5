//! A write that is synced: two calls, as most who write to a disk make them.

ghost use Rattle.std.specs.Prelude.{◌+◌, ◌≤◌, length, OnOk};
ghost use Rattle.linda_disk.specs.Disk.{CountsFailure};
ghost use Rattle.linda_disk.specs.Runs.{Runs, WritesSynced, anything, takes};

use crate::disk::Disk;
use crate::fault::DiskFault;

/// Writes the bytes at this offset, over what is there and past the end, and makes all that was
/// written durable.
///
/// # Errors
///
/// `Device` if the device failed, which it counts, and `Memory`: the bytes may be there, in part
/// too.
pub fn write_synced<D: Disk>(disk: &mut D, at: usize, bytes: &[u8]) -> Result<(), DiskFault>
    requires { D.honest disk.old → at ≤ length (D.view disk.old).seen }
    ensures writes { D.honest disk.old
        → WritesSynced at bytes.now result (D.view disk.old) (D.view disk.new) }
    ensures long { D.honest disk.old
        → OnOk result (at + length bytes.now ≤ length (D.view disk.new).seen) }
    ensures cause { CountsFailure result (D.failures disk.old) (D.failures disk.new) }
    ensures runs { Runs D.Disk anything (takes 2) DiskFault.Device disk.old result disk.new }
{
    disk.write_at(at, bytes)?;
    disk.sync()?;
    Ok(())
}
