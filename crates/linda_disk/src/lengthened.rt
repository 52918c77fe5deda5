//! Bytes after the end of a file, or the file as it was if the device has no room for them.

ghost use Rattle.std.specs.Prelude.{◌≡◌, ◌⊎◌, ◌↔◌, ◌≤◌, ℕ, List, length, take, OnOk};
ghost use Rattle.linda_disk.specs.View.{IsDurable};
ghost use Rattle.linda_disk.specs.Disk.{CountsFailure};
ghost use Rattle.linda_disk.specs.Lengthens.{Lengthens, Begins};
ghost use Rattle.linda_disk.specs.Run.{LeavesOnly};

use crate::disk::Disk;
use crate::fault::DiskFault;

/// Writes these bytes after the end of the file, which is at this offset, and syncs them; returns
/// whether they are there. If the device does not take them, the file is cut to what it was, which
/// is synced too. At each moment the file begins with what it had.
///
/// # Errors
///
/// `Device` if the device failed, which it counts, and `Memory`, if the file cannot be cut or
/// synced. The bytes may be there, in part too.
pub fn lengthen<D: Disk>(disk: &mut D, at: usize, bytes: &[u8]) -> Result<bool, DiskFault>
    requires end { D.honest disk.old → at ≡ length (D.view disk.old).seen }
    requires durable { D.honest disk.old → IsDurable (D.view disk.old) }
    ensures { Lengthens D.Disk bytes.now disk.old result disk.new }
{
    match disk.write_at(at, bytes) {
        Ok(()) => match disk.sync() {
            Ok(()) => Ok(true),
            Err(fault) => Err(fault),
        },
        Err(first) => match take_back(disk, at) {
            Ok(()) => Ok(false),
            Err(second) => Err(device_first(first, second)),
        },
    }
}

// Cuts the file to this length and syncs it.
fn take_back<D: Disk>(disk: &mut D, at: usize) -> Result<(), DiskFault>
    requires { D.honest disk.old → at ≤ length (D.view disk.old).seen }
    ensures seen { D.honest disk.old
        → OnOk result ((D.view disk.new).seen ≡ take at (D.view disk.old).seen) }
    ensures durable { D.honest disk.old → OnOk result (IsDurable (D.view disk.new)) }
    // If a crash leaves only what begins so, and not what is shorter, it does at each moment.
    ensures any_moment { (front : List ℕ) → length front ≡ at → D.honest disk.old
        → ((image : List ℕ) → (D.view disk.old).may_leave image → Begins front image)
        → LeavesOnly (D.view disk.old) (D.view disk.new) (Begins front) }
    ensures honest { D.honest disk.old ↔ D.honest disk.new }
    ensures cause { CountsFailure result (D.failures disk.old) (D.failures disk.new) }
{
    disk.cut(at)?;
    disk.sync()?;
    Ok(())
}

// The fault of two calls that failed: that of the device, if it is one of them.
fn device_first(first: DiskFault, second: DiskFault) -> DiskFault
    ensures device { result ≡ DiskFault.Device
        ↔ (first ≡ DiskFault.Device) ⊎ (second ≡ DiskFault.Device) }
{
    match (first, second) {
        (DiskFault::Memory, DiskFault::Memory) => DiskFault::Memory,
        (DiskFault::Memory, DiskFault::Device) => DiskFault::Device,
        (DiskFault::Device, _) => DiskFault::Device,
    }
}
