//! Two disks that are to hold a new server.

ghost use Rattle.std.specs.Prelude.{◌≡◌, ◌<◌, ◌⊎◌, ◌↔◌, []};
ghost use Rattle.std.specs.Prelude.{true, false, length, IfOk, IfErr, OnOk, IsErrOf};
ghost use Rattle.linda_store_state.specs.State.{empty_state};
ghost use Rattle.linda_store_state.specs.DeedFormat.{written};
ghost use Rattle.linda_disk.specs.Disk.{TellsFailures, TellsFailuresOfTwo};
ghost use Rattle.linda_disk.specs.Run.{LeavesOnly};
ghost use Rattle.linda_snap.specs.declared.putting.TheConstants.{EMPTY_STATE_BYTES};
ghost use Rattle.linda_snap.specs.Snapshot.{spell_state, FitsState};
ghost use Rattle.linda_server.specs.declared.limits.TheConstants.{MIN_LIMIT, MAX_LIMIT};
ghost use Rattle.linda_server.specs.Pairs.{IsVoid};
ghost use Rattle.linda_server.specs.Calls.{IsLimit};

use crate::fault::OpenFault;
use crate::limits::{MAX_LIMIT, MIN_LIMIT};
use linda_bag::IndexBag;
use linda_disk::{Disk, DiskFault};
use linda_snap::put_state;
use linda_store_state::State;
use std::alloc::{AllocError, Global};

/// Sees to it that both disks are empty, and that a bank may have this limit. Nothing is written.
///
/// # Errors
///
/// `NotEmpty`, `LimitRange`; `Disk` if a device failed, `Memory`.
pub(crate) fn expect_empty<D: Disk>(
    left: &mut D,
    right: &mut D,
    limit: usize,
) -> Result<(), OpenFault>
    ensures left { D.honest left.old → IsVoid (D.view left.old)
        → LeavesOnly (D.view left.old) (D.view left.new) (λ image. image ≡ [])
        × IsVoid (D.view left.new) }
    ensures right { D.honest right.old → IsVoid (D.view right.old)
        → LeavesOnly (D.view right.old) (D.view right.new) (λ image. image ≡ [])
        × IsVoid (D.view right.new) }
    ensures limit { OnOk result (IsLimit limit) }
    // The limit is judged last.
    ensures range { IsErrOf result OpenFault.LimitRange → (IsLimit limit → ⊥)
        × (D.honest left.old → D.honest right.old
        → ((D.view left.old).seen ≡ []) × ((D.view right.old).seen ≡ [])) }
    ensures empty { OnOk result (D.honest left.old → D.honest right.old
        → ((D.view left.old).seen ≡ []) × ((D.view right.old).seen ≡ [])) }
    ensures full { IsErrOf result OpenFault.NotEmpty → D.honest left.old → D.honest right.old
        → (0 < length (D.view left.old).seen) ⊎ (0 < length (D.view right.old).seen) }
    ensures left_honest { D.honest left.old ↔ D.honest left.new }
    ensures right_honest { D.honest right.old ↔ D.honest right.new }
    ensures steady { OnOk result ((D.failures left.new ≡ D.failures left.old)
        × (D.failures right.new ≡ D.failures right.old)) }
    ensures left_clock { D.honest left.old
        → (D.view left.new).moment ≡ (D.view left.old).moment }
    ensures right_clock { D.honest right.old
        → (D.view right.new).moment ≡ (D.view right.old).moment }
    ensures cause { IfErr result (λ fault. TellsFailuresOfTwo OpenFault.Disk fault
        (D.failures left.old) (D.failures right.old) (D.failures left.new) (D.failures right.new)) }
    ensures known { IsErrOf result OpenFault.NoStore → ⊥ }
{
    expect_no_bytes(left)?;
    expect_no_bytes(right)?;
    if is_limit(limit) {
        Ok(())
    } else {
        Err(OpenFault::LimitRange)
    }
}

/// Whether a bank may have this limit.
pub(crate) fn is_limit(limit: usize) -> bool
    ensures yes { result ≡ true → IsLimit limit }
    ensures no { result ≡ false → IsLimit limit → ⊥ }
{
    limit >= MIN_LIMIT && limit <= MAX_LIMIT
}

// Sees to it that the disk is empty.
fn expect_no_bytes<D: Disk>(disk: &mut D) -> Result<(), OpenFault>
    ensures void { D.honest disk.old → IsVoid (D.view disk.old)
        → LeavesOnly (D.view disk.old) (D.view disk.new) (λ image. image ≡ [])
        × IsVoid (D.view disk.new) }
    ensures empty { OnOk result (D.honest disk.old → (D.view disk.old).seen ≡ []) }
    ensures full { IsErrOf result OpenFault.NotEmpty → D.honest disk.old
        → 0 < length (D.view disk.old).seen }
    ensures known { (IsErrOf result OpenFault.LimitRange → ⊥)
        × (IsErrOf result OpenFault.NoStore → ⊥) }
    ensures honest { D.honest disk.old ↔ D.honest disk.new }
    ensures steady { OnOk result (D.failures disk.new ≡ D.failures disk.old) }
    ensures clock { D.honest disk.old → (D.view disk.new).moment ≡ (D.view disk.old).moment }
    ensures cause { IfErr result (λ fault. TellsFailures OpenFault.Disk fault
        (D.failures disk.old) (D.failures disk.new)) }
{
    match disk.len() {
        Ok(0) => Ok(()),
        Ok(_) => Err(OpenFault::NotEmpty),
        Err(fault) => Err(of_device(fault)),
    }
}

/// What a server returns for a disk's fault.
pub(crate) fn of_device(fault: DiskFault) -> OpenFault
    ensures device { (result ≡ OpenFault.Disk) ↔ (fault ≡ DiskFault.Device) }
    ensures memory { (result ≡ OpenFault.Memory) ↔ (fault ≡ DiskFault.Memory) }
{
    match fault {
        DiskFault::Device => OpenFault::Disk,
        DiskFault::Memory => OpenFault::Memory,
    }
}

/// The snapshot of a server that was never used.
///
/// # Errors
///
/// `AllocError` if memory runs out.
pub(crate) fn spell_empty(alloc: Global) -> Result<Vec<u8>, AllocError>
    ensures bytes { IfOk result (λ v. v.items ≡ spell_state written empty_state) }
    ensures fits { OnOk result (FitsState written empty_state) }
    ensures short { length (spell_state written empty_state) ≡ EMPTY_STATE_BYTES }
{
    let state: State<IndexBag> = State::new(alloc);
    let mut body = Vec::new(alloc);
    put_state(&mut body, &state)?;
    Ok(body)
}
