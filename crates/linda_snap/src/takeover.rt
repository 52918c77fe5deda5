//! The end of a new bank that was written in steps: it is taken into use.

ghost use Rattle.std.specs.Prelude.{◌≡◌, ◌+◌, ◌<◌, ℕ, List, true, false, length, IfOk, IfErr};
ghost use Rattle.linda_store_state.specs.DeedFormat.{written};
ghost use Rattle.linda_store_state.specs.State as states;
ghost use Rattle.linda_disk.specs.Runs.{RunsBeside, takes};
ghost use Rattle.linda_journal.specs.Renewal.{IsFilled};
ghost use Rattle.linda_snap.specs.Stands.{IsStored, IsUp};
ghost use Rattle.linda_snap.specs.BankWriter.{Completes};
ghost use Rattle.linda_snap.specs.Switch.{takes_over};

use crate::bank_writer::BankWriter;
use linda_disk::{Disk, DiskFault};
use linda_journal::{Bank, Filling};

/// Writes the last bytes of a new bank after those before, opens its first gate, and returns it,
/// with the disk of the bank that was in use. That disk is not touched.
///
/// # Errors
///
/// `Device` if the device failed, and `Memory` if the disk found none: the bank that was in use is
/// handed back spent, and both disks are to be opened again.
pub fn take_over<D: Disk>(
    current: Bank<D>,
    filling: Filling<D>,
    next: &BankWriter,
    bytes: &[u8],
) -> Result<(Bank<D>, D), (DiskFault, Bank<D>, D)>
    requires { next.now.generation ≡ current.generation + 1 }
    // At Ok the new bank is in use, and represents the state,
    ensures done { (front : List ℕ) (st : states.State)
        → D.honest current.disk → D.honest filling.disk
        → IsUp current.form current.generation current.end (D.view current.disk)
        (D.view filling.disk) st
        → IsFilled front filling.at (D.view filling.disk)
        → Completes next.now front bytes.now st
        → IfOk result (λ x.
        IsUp x.0.form x.0.generation x.0.end (D.view x.0.disk) (D.view x.1) st) }
    // on its own disk, also if the disk that was in use is not honest.
    ensures stored { (front : List ℕ) (st : states.State)
        → (D.honest filling.disk → IsFilled front filling.at (D.view filling.disk))
        → Completes next.now front bytes.now st
        → IfOk result (λ x. D.honest x.0.disk
        → IsStored x.0.form x.0.generation x.0.end (D.view x.0.disk) st) }
    ensures new { IfOk result (λ x. (x.0.form ≡ written) × (x.0.generation ≡ current.generation + 1)
        × (x.0.limit ≡ current.limit) × (x.0.is_spent ≡ false)) }
    // It ends with the last byte, within its limit, and counts the records that were noted.
    ensures place { IfOk result (λ x. x.0.end + 1 ≡ filling.at + length bytes.now) }
    ensures within { (front : List ℕ) (st : states.State) → filling.at ≡ 1 + length front
        → Completes next.now front bytes.now st
        → IfOk result (λ x. x.0.end < next.now.limit) }
    ensures records { next.now.records < filling.at + length bytes.now
        → IfOk result (λ x. x.0.records ≡ next.now.records) }
    // The disk that was in use is not touched.
    ensures same { IfOk result (λ x. x.1 ≡ current.disk)
        × IfErr result (λ e. e.1.disk ≡ current.disk) }
    ensures spent { IfErr result (λ e. e.1.is_spent ≡ true) }
    // A crash at any moment leaves on the other disk only what represents the state, beside the
    // bank in use.
    ensures runs { RunsBeside D.Disk (λ x. x.0.disk) (takes_over (D.honest current.disk)
        current.form current.generation current.end (D.view current.disk) next.now filling.at
        bytes.now) (takes 4) DiskFault.Device filling.disk result }
{
    let limit = current.limit();
    match filling.finish(bytes, next.generation(), limit, next.records()) {
        Ok(bank) => Ok((bank, current.into_disk())),
        Err((fault, other)) => {
            let mut current = current;
            current.retire();
            Err((fault, current, other))
        }
    }
}
