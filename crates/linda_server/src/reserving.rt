//! Room for the next bank, on the disk that is not in use.

ghost use Rattle.std.specs.Prelude.{◌≡◌, ◌≤◌, ◌<◌, ◌+◌, ◌^◌, true, length, IfOk, OnOk};
ghost use Rattle.linda_store_state.specs.State.{State};
ghost use Rattle.linda_disk.specs.View.{IsDurable};
ghost use Rattle.linda_disk.specs.Runs.{Runs, anything, leaves, stays};
ghost use Rattle.linda_journal.specs.Renewal.{IsNoBank, IsSameOrNone, IsClosed, shuts};
ghost use Rattle.linda_server.specs.Reserving.{IsReserved, Resizes};
ghost use Rattle.linda_server.specs.Server.{is_usable, RunsOnBoth};
ghost use Rattle.linda_server.specs.Switch.{IsOtherDurable};

use crate::disks::{Disks, Pair};
use linda_disk::{Disk, DiskFault, lengthen};
use linda_journal::{Bank, CLOSED, shut};
use std::alloc::Global;

/// The most bytes that one call writes.
const MOST: usize = 4_194_304;

/// Sees to it that the file of the disk that is not in use has at least `least` bytes, and no more
/// than `most`: closed gates come after what it has, 4 MiB in one call at most, or it is cut to
/// `least`. If it changes, its first gate is closed before that. Returns how many bytes it has
/// then: if the device does not take more, as many as it had. The bank in use is not touched.
///
/// # Errors
///
/// `Device` if the device failed, and `Memory` if the disk found none: neither disk is to be used.
pub(crate) fn reserve<D: Disk>(
    disks: &mut Disks<Bank<D>, D>,
    alloc: Global,
    least: usize,
    most: usize,
) -> Result<usize, DiskFault>
    requires ready { is_usable disks.old ≡ true }
    requires durable { IsOtherDurable disks.old }
    // Crashes at any moment leave the state, whichever it is.
    ensures runs { (st : State) → RunsOnBoth (Unit {0}) st DiskFault.Device disks.old result
        disks.new }
    ensures reserved { IfOk result (λ n. IsReserved n disks.old disks.new) }
{
    let Pair {
        bank,
        other,
        is_right,
    } = disks.lend();
    let (told, other) = sized(other, alloc, least, most);
    *disks = Disks::InUse(Pair {
        bank,
        other,
        is_right,
    });
    told
}

// A disk that is not in use with so many bytes: its gate is closed, unless it has as many already.
fn sized<D: Disk>(
    disk: D,
    alloc: Global,
    least: usize,
    most: usize,
) -> (Result<usize, DiskFault>, D)
    requires { D.honest disk → IsDurable (D.view disk) }
    ensures len { D.honest disk → IfOk result.0 (λ n. length (D.view result.1).seen ≡ n) }
    ensures now { D.honest disk
        → OnOk result.0 (IsSameOrNone (D.view disk).seen (D.view result.1).seen) }
    ensures durable { D.honest disk → OnOk result.0 (IsDurable (D.view result.1)) }
    ensures runs { Resizes D.Disk shuts disk result.0 result.1 }
{
    let mut disk = disk;
    match len_of(&mut disk) {
        Err(fault) => (Err(fault), disk),
        Ok(len) => {
            if least <= len && len <= most {
                return (Ok(len), disk);
            }
            match shut(disk) {
                Err((fault, disk)) => (Err(fault), disk),
                Ok(closed) => {
                    let mut disk = closed.into_disk();
                    let told = size_behind_gate(&mut disk, alloc, least, most);
                    (told, disk)
                }
            }
        }
    }
}

// How many bytes the file has.
fn len_of<D: Disk>(disk: &mut D) -> Result<usize, DiskFault>
    requires { D.honest disk.old → IsDurable (D.view disk.old) }
    ensures len { D.honest disk.old → IfOk result (λ n. length (D.view disk.new).seen ≡ n) }
    ensures seen { D.honest disk.old → (D.view disk.new).seen ≡ (D.view disk.old).seen }
    ensures durable { D.honest disk.old → IsDurable (D.view disk.new) }
    ensures runs { Runs D.Disk stays anything DiskFault.Device disk.old result disk.new }
{
    let len = disk.len()?;
    Ok(len)
}

// The same of a disk whose first gate is closed.
fn size_behind_gate<D: Disk>(
    disk: &mut D,
    alloc: Global,
    least: usize,
    most: usize,
) -> Result<usize, DiskFault>
    requires closed { D.honest disk.old → IsClosed (D.view disk.old).seen }
    requires durable { D.honest disk.old → IsDurable (D.view disk.old) }
    ensures len { D.honest disk.old → IfOk result (λ n. length (D.view disk.new).seen ≡ n) }
    ensures closed { D.honest disk.old → OnOk result (IsClosed (D.view disk.new).seen) }
    ensures durable { D.honest disk.old → OnOk result (IsDurable (D.view disk.new)) }
    ensures runs { Resizes D.Disk (leaves IsNoBank) disk.old result disk.new }
{
    let len = len_of(disk)?;
    if len < least {
        return lengthen_behind_gate(disk, alloc, len, (least - len).min(MOST));
    }
    if len > most && least < len {
        return cut_behind_gate(disk, least.max(1));
    }
    Ok(len)
}

// Writes so many closed gates after the end of the file, which is at this offset.
#[tactic(auto, using(crate::proofs::ReservingLaws::closed_more))]
fn lengthen_behind_gate<D: Disk>(
    disk: &mut D,
    alloc: Global,
    at: usize,
    more: usize,
) -> Result<usize, DiskFault>
    requires closed { D.honest disk.old → IsClosed (D.view disk.old).seen }
    requires durable { D.honest disk.old → IsDurable (D.view disk.old) }
    requires end { D.honest disk.old → length (D.view disk.old).seen ≡ at }
    requires small { at + more < 2 ^ 64 }
    ensures len { D.honest disk.old → IfOk result (λ n. length (D.view disk.new).seen ≡ n) }
    ensures closed { D.honest disk.old → OnOk result (IsClosed (D.view disk.new).seen) }
    ensures durable { D.honest disk.old → OnOk result (IsDurable (D.view disk.new)) }
    ensures runs { Resizes D.Disk (leaves IsNoBank) disk.old result disk.new }
{
    let Ok(gates) = vec![in alloc; CLOSED; more] else {
        return Ok(at);
    };
    match lengthen(disk, at, &gates) {
        Err(fault) => Err(fault),
        Ok(false) => Ok(at),
        Ok(true) => Ok(at + more),
    }
}

// Cuts the file to so many bytes.
#[tactic(auto, using(crate::proofs::ReservingLaws::closed_take))]
fn cut_behind_gate<D: Disk>(disk: &mut D, to: usize) -> Result<usize, DiskFault>
    requires closed { D.honest disk.old → IsClosed (D.view disk.old).seen }
    requires durable { D.honest disk.old → IsDurable (D.view disk.old) }
    requires within { D.honest disk.old → to ≤ length (D.view disk.old).seen }
    requires some { 1 ≤ to }
    ensures len { D.honest disk.old → IfOk result (λ n. length (D.view disk.new).seen ≡ n) }
    ensures closed { D.honest disk.old → OnOk result (IsClosed (D.view disk.new).seen) }
    ensures durable { D.honest disk.old → OnOk result (IsDurable (D.view disk.new)) }
    ensures runs { Resizes D.Disk (leaves IsNoBank) disk.old result disk.new }
{
    disk.cut(to)?;
    disk.sync()?;
    Ok(to)
}
