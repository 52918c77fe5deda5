//! A disk that is not in use, with its first gate closed, so that a new bank can be written after
//! that gate.

ghost use Rattle.std.specs.Prelude.{◌≡◌, ◌≤◌, true, false, length, IfOk, OnOk};
ghost use Rattle.linda_disk.specs.View.{IsDurable};
ghost use Rattle.linda_disk.specs.Run.{LeavesOnly};
ghost use Rattle.linda_disk.specs.Runs.{Runs, RunsTo, stays, takes};
ghost use Rattle.linda_journal.specs.declared.limits.TheConstants.{MIN_BYTES};
ghost use Rattle.linda_journal.specs.Renewal.{IsNoBank, IsClosed, IsOpenOrShort, TakesCalls, shuts};

use crate::kinds::{CLOSED, OPEN};
use crate::limits::MIN_BYTES;
use linda_disk::{Disk, DiskFault, write_synced};

/// A disk whose first gate is closed, and a crash leaves it so: it holds no bank, no matter what is
/// written after the gate.
#[derive(Drop)]
pub struct Closed<D: Disk> {
    pub(crate) disk: D,
    ghost closed: { D.honest disk → IsClosed (D.view disk).seen },
    ghost durable: { D.honest disk → IsDurable (D.view disk) },
}

impl<D: Disk> Closed<D> {
    /// The disk that the gate is on.
    pub fn into_disk(self) -> D
        ensures same { result ≡ self.disk }
        ensures closed { D.honest result → IsClosed (D.view result).seen }
        ensures durable { D.honest result → IsDurable (D.view result) }
    {
        let Closed { disk } = self;
        disk
    }
}

/// Closes the first gate of a disk that is not in use: a write of that gate and a sync. If the disk
/// has as many bytes as a bank and its first gate is closed already, nothing is written: to write
/// over it might open it.
///
/// # Errors
///
/// `Device` if the device failed, `Memory` if the disk found none; each hands the disk back.
pub fn shut<D: Disk>(disk: D) -> Result<Closed<D>, (DiskFault, D)>
    requires { D.honest disk → IsDurable (D.view disk) }
    // If it was closed already, a crash at any moment leaves only what was there.
    ensures still { D.honest disk → MIN_BYTES ≤ length (D.view disk).seen
        → IsNoBank (D.view disk).seen
        → IfOk result (λ c. LeavesOnly (D.view disk) (D.view c.disk)
        (λ image. image ≡ (D.view disk).seen)) }
    // A crash at any moment leaves only what was there, or no bank. It is a write and a sync, or no
    // call at all.
    ensures runs { RunsTo D.Disk (λ c. c.disk) shuts (TakesCalls 0) DiskFault.Device disk result }
{
    let mut disk = disk;
    match close(&mut disk) {
        Err(fault) => Err((fault, disk)),
        Ok(()) => Ok(Closed { disk }),
    }
}

// Closes the first gate, if it is not closed already.
fn close<D: Disk>(disk: &mut D) -> Result<(), DiskFault>
    requires { D.honest disk.old → IsDurable (D.view disk.old) }
    ensures closed { D.honest disk.old → OnOk result (IsClosed (D.view disk.new).seen) }
    ensures durable { D.honest disk.old → OnOk result (IsDurable (D.view disk.new)) }
    ensures still { D.honest disk.old → MIN_BYTES ≤ length (D.view disk.old).seen
        → IsNoBank (D.view disk.old).seen
        → OnOk result (LeavesOnly (D.view disk.old) (D.view disk.new)
        (λ image. image ≡ (D.view disk.old).seen)) }
    ensures runs { Runs D.Disk shuts (TakesCalls 0) DiskFault.Device disk.old result disk.new }
{
    if is_closed(disk)? {
        return Ok(());
    }
    write_synced(disk, 0, &[CLOSED])
}

// Whether there are as many bytes as a bank has, and the first gate is closed.
fn is_closed<D: Disk>(disk: &mut D) -> Result<bool, DiskFault>
    requires { D.honest disk.old → IsDurable (D.view disk.old) }
    ensures yes { D.honest disk.old
        → IfOk result (λ b. b ≡ true → (MIN_BYTES ≤ length (D.view disk.old).seen)
        × IsClosed (D.view disk.old).seen) }
    ensures no { D.honest disk.old
        → IfOk result (λ b. b ≡ false → IsOpenOrShort (D.view disk.old).seen) }
    ensures seen { D.honest disk.old → (D.view disk.new).seen ≡ (D.view disk.old).seen }
    ensures durable { D.honest disk.old → IsDurable (D.view disk.new) }
    ensures runs { Runs D.Disk stays (takes 0) DiskFault.Device disk.old result disk.new }
{
    let len = disk.len()?;
    if len < MIN_BYTES {
        return Ok(false);
    }
    let mut gate = [0; 1];
    disk.read_at(0, &mut gate)?;
    Ok(gate[0] != OPEN)
}
