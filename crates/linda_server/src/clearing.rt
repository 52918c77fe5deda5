//! Clearing of the disk that is not in use.

ghost use Rattle.std.specs.Prelude.{◌≡◌, true, length, OnOk};
ghost use Rattle.linda_store_state.specs.State.{State};
ghost use Rattle.linda_disk.specs.View.{IsDurable};
ghost use Rattle.linda_disk.specs.Runs.{Runs, leaves, takes};
ghost use Rattle.linda_journal.specs.Renewal.{IsNoBank, IsClosed, TakesCalls, shuts};
ghost use Rattle.linda_server.specs.Server.{is_usable, IsClearedBy, RunsOnBoth};
ghost use Rattle.linda_server.specs.Switch.{IsOtherDurable, IsTrimmed};

use crate::disks::{Disks, Pair};
use linda_disk::{Disk, DiskFault};
use linda_journal::{Bank, shut};

/// Leaves one byte of the disk that is not in use, the closed gate of a bank that is none any more.
/// The bank in use is not touched.
///
/// # Errors
///
/// `Device` if the device failed, and `Memory` if the disk found none: neither disk is to be used.
pub(crate) fn clear<D: Disk>(disks: &mut Disks<Bank<D>, D>) -> Result<(), DiskFault>
    requires ready { is_usable disks.old ≡ true }
    requires durable { IsOtherDurable disks.old }
    // Crashes at any moment leave the state, whichever it is.
    ensures runs { (st : State) → RunsOnBoth (Unit {0}) st DiskFault.Device disks.old result
        disks.new }
    ensures trimmed { OnOk result (IsTrimmed disks.old disks.new) }
    ensures clock { OnOk result (IsClearedBy disks.old disks.new) }
{
    let Pair {
        bank,
        other,
        is_right,
    } = disks.lend();
    let (told, other) = emptied(other);
    *disks = Disks::InUse(Pair {
        bank,
        other,
        is_right,
    });
    told
}

// A disk that is not in use with its gate closed, and nothing after that gate.
fn emptied<D: Disk>(disk: D) -> (Result<(), DiskFault>, D)
    requires { D.honest disk → IsDurable (D.view disk) }
    ensures one_byte { D.honest disk → OnOk result.0 ((length (D.view result.1).seen ≡ 1)
        × IsClosed (D.view result.1).seen) }
    ensures durable { D.honest disk → OnOk result.0 (IsDurable (D.view result.1)) }
    ensures runs { Runs D.Disk shuts (TakesCalls 2) DiskFault.Device disk result.0 result.1 }
{
    match shut(disk) {
        Err((fault, disk)) => (Err(fault), disk),
        Ok(closed) => {
            let mut disk = closed.into_disk();
            let told = cut_behind_gate(&mut disk);
            (told, disk)
        }
    }
}

// Cuts off all that comes after a first gate that is closed.
fn cut_behind_gate<D: Disk>(disk: &mut D) -> Result<(), DiskFault>
    requires closed { D.honest disk.old → IsClosed (D.view disk.old).seen }
    requires durable { D.honest disk.old → IsDurable (D.view disk.old) }
    ensures one_byte { D.honest disk.old → OnOk result ((length (D.view disk.new).seen ≡ 1)
        × IsClosed (D.view disk.new).seen) }
    ensures durable { D.honest disk.old → OnOk result (IsDurable (D.view disk.new)) }
    ensures runs { Runs D.Disk (leaves IsNoBank) (takes 2) DiskFault.Device disk.old result
        disk.new }
{
    disk.cut(1)?;
    disk.sync()?;
    Ok(())
}
