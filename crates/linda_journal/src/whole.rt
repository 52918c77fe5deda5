//! A new bank after a first gate that is still closed: it is written whole before that gate opens.

ghost use Rattle.std.specs.Prelude.{◌≡◌, ◌∷◌, [], ◌++◌, ◌<◌, ◌≤◌, ◌+◌, ◌^◌, ℕ, List, length};
ghost use Rattle.std.specs.Prelude.{IfOk, OnOk};
ghost use Rattle.linda_store_state.specs.DeedFormat.{written};
ghost use Rattle.linda_disk.specs.View.{IsDurable};
ghost use Rattle.linda_disk.specs.Image.{overlay};
ghost use Rattle.linda_disk.specs.Runs.{Runs, RunsTo, leaves, takes};
ghost use Rattle.linda_journal.specs.declared.kinds.TheConstants.{CLOSED};
ghost use Rattle.linda_journal.specs.Gate.{ClosesAfter, IsReady};
ghost use Rattle.linda_journal.specs.Bank.{behind_gate};
ghost use Rattle.linda_journal.specs.Renewal.{IsNoBank, IsClosed, IsWhole, pieces};

use crate::closed::Closed;
use crate::limits::PIECE;
use linda_disk::{Disk, DiskFault};

/// A disk that holds all of a new bank, after a first gate that is still closed.
#[derive(Drop)]
pub struct Whole<D: Disk> {
    pub(crate) disk: D,
    pub(crate) generation: u64,
    pub(crate) end: usize,
    ghost inside: { D.honest disk → end < length (D.view disk).seen },
}

/// Writes these bytes, which come after the first gate of a new bank of this generation, in order
/// and in pieces; and then sees to it that they are on the disk.
///
/// # Errors
///
/// `Device` if the device failed, `Memory` if the disk found none; each hands the disk back.
pub fn write_body<D: Disk>(
    closed: Closed<D>,
    generation: u64,
    bytes: &[u8],
) -> Result<Whole<D>, (DiskFault, D)>
    requires low { 1 ≤ generation }
    ensures whole { (body : List ℕ) → length body < 2 ^ 32
        → bytes.now ≡ behind_gate written generation body ++ CLOSED ∷ [] → D.honest closed.disk
        → IfOk result (λ w. IsWhole written generation body w.end (D.view w.disk)) }
    ensures new { IfOk result (λ w. (w.generation ≡ generation) × (w.end ≡ length bytes.now)) }
    // A crash at any moment leaves no bank. It is one write for each piece, and a sync.
    ensures runs { RunsTo D.Disk (λ w. w.disk) (leaves IsNoBank)
        (takes (pieces (length bytes.now) + 1)) DiskFault.Device closed.disk result }
{
    let mut disk = closed.into_disk();
    match write_behind(&mut disk, bytes) {
        Err(fault) => Err((fault, disk)),
        Ok(()) => Ok(Whole {
            disk,
            generation,
            end: bytes.len(),
        }),
    }
}

// Writes these bytes after a first gate that is closed, and sees to it that they are on the disk.
fn write_behind<D: Disk>(disk: &mut D, bytes: &[u8]) -> Result<(), DiskFault>
    requires closed { D.honest disk.old → IsClosed (D.view disk.old).seen }
    requires durable { D.honest disk.old → IsDurable (D.view disk.old) }
    ensures ready { (body : List ℕ) → bytes.now ≡ body ++ CLOSED ∷ [] → D.honest disk.old
        → OnOk result (IsReady [] 0 body (D.view disk.new)) }
    ensures long { D.honest disk.old
        → OnOk result (length bytes.now < length (D.view disk.new).seen) }
    ensures runs { Runs D.Disk (leaves IsNoBank) (takes (pieces (length bytes.now) + 1))
        DiskFault.Device disk.old result disk.new }
{
    write_pieces(disk, bytes)?;
    disk.sync()?;
    Ok(())
}

// Writes these bytes from offset 1 on, in order and in pieces, of which the last one may be
// shorter.
fn write_pieces<D: Disk>(disk: &mut D, bytes: &[u8]) -> Result<(), DiskFault>
    requires closed { D.honest disk.old → IsClosed (D.view disk.old).seen }
    requires durable { D.honest disk.old → IsDurable (D.view disk.old) }
    ensures seen { D.honest disk.old
        → OnOk result ((D.view disk.new).seen ≡ overlay 1 bytes.now (D.view disk.old).seen) }
    ensures runs { Runs D.Disk (leaves (ClosesAfter [])) (takes (pieces (length bytes.now)))
        DiskFault.Device disk.old result disk.new }
{
    let mut at = 1;
    let mut rest = bytes;
    while rest.len() > PIECE {
        let (piece, later) = rest.split_at(PIECE);
        disk.write_at(at, piece)?;
        at += PIECE;
        rest = later;
    }
    disk.write_at(at, rest)?;
    Ok(())
}
