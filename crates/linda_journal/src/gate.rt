//! The two steps by which a body comes onto a disk whole or not at all: first it is written after a
//! gate that is closed, and only once it is there the gate is opened.

ghost use Rattle.std.specs.Prelude.{◌≡◌, ◌∷◌, [], ◌++◌, ◌<◌, ◌+◌, ◌^◌, ℕ, List, length, OnOk};
ghost use Rattle.linda_disk.specs.Disk.{CountsFailure};
ghost use Rattle.linda_disk.specs.Runs.{Runs, takes};
ghost use Rattle.linda_journal.specs.declared.kinds.TheConstants.{OPEN, CLOSED};
ghost use Rattle.linda_journal.specs.Gate.{IsShut, IsReady, stays_shut, opens, puts, lays};

use crate::kinds::{CLOSED, OPEN};
use linda_disk::{Disk, DiskFault, write_synced};

/// Writes these bytes, a body and a closed gate, after the gate at this offset, which is closed,
/// and then opens that gate.
///
/// # Errors
///
/// `Device` if the device failed, `Memory`. The body is there whole, or not at all.
pub(crate) fn put<D: Disk>(disk: &mut D, gate: usize, bytes: &[u8]) -> Result<(), DiskFault>
    requires room { gate + 1 < 2 ^ 64 }
    requires within { D.honest disk.old → gate < length (D.view disk.old).seen }
    ensures done { (front body : List ℕ) → bytes.now ≡ body ++ CLOSED ∷ [] → D.honest disk.old
        → IsShut front gate (D.view disk.old)
        → OnOk result (IsShut (front ++ OPEN ∷ body) (gate + 1 + length body) (D.view disk.new)) }
    ensures long { D.honest disk.old
        → OnOk result (gate + length bytes.now < length (D.view disk.new).seen) }
    ensures runs { Runs D.Disk (puts gate bytes.now) (takes 4) DiskFault.Device disk.old result
        disk.new }
{
    stage(disk, gate, bytes)?;
    open_gate(disk, gate)
}

// Writes these bytes, a body and a closed gate, after the gate at this offset, which is closed and
// stays so; and sees to it that they are on the disk.
fn stage<D: Disk>(disk: &mut D, gate: usize, bytes: &[u8]) -> Result<(), DiskFault>
    requires room { gate + 1 < 2 ^ 64 }
    requires within { D.honest disk.old → gate < length (D.view disk.old).seen }
    ensures ready { (front body : List ℕ) → bytes.now ≡ body ++ CLOSED ∷ [] → D.honest disk.old
        → IsShut front gate (D.view disk.old)
        → OnOk result (IsReady front gate body (D.view disk.new)) }
    ensures long { D.honest disk.old
        → OnOk result (gate + length bytes.now < length (D.view disk.new).seen) }
    ensures runs { Runs D.Disk (stays_shut gate) (takes 2) DiskFault.Device disk.old result
        disk.new }
{
    write_synced(disk, gate + 1, bytes)
}

/// Opens the gate at this offset, which has a body after it.
///
/// # Errors
///
/// `Device` if the device failed, `Memory`. The gate may be open.
pub(crate) fn open_gate<D: Disk>(disk: &mut D, gate: usize) -> Result<(), DiskFault>
    requires { D.honest disk.old → gate < length (D.view disk.old).seen }
    ensures opened { (front body : List ℕ) → D.honest disk.old
        → IsReady front gate body (D.view disk.old)
        → OnOk result (IsShut (front ++ OPEN ∷ body) (gate + 1 + length body) (D.view disk.new)) }
    ensures long { D.honest disk.old
        → OnOk result (length (D.view disk.new).seen ≡ length (D.view disk.old).seen) }
    ensures runs { Runs D.Disk (opens gate) (takes 2) DiskFault.Device disk.old result disk.new }
{
    write_synced(disk, gate, &[OPEN])
}

/// Writes a closed gate at the front of an empty disk, and sees to it that it is on the disk.
///
/// # Errors
///
/// `Device` if the device failed, `Memory`.
pub fn lay_gate<D: Disk>(disk: &mut D) -> Result<(), DiskFault>
    ensures shut { D.honest disk.old → OnOk result (IsShut [] 0 (D.view disk.new)) }
    ensures long { D.honest disk.old → OnOk result (0 < length (D.view disk.new).seen) }
    ensures cause { CountsFailure result (D.failures disk.old) (D.failures disk.new) }
    ensures runs { Runs D.Disk lays (takes 2) DiskFault.Device disk.old result disk.new }
{
    write_synced(disk, 0, &[CLOSED])
}
