//! The switch of a server to its other disk: a new bank there whose body is a snapshot of the
//! state.

ghost use Rattle.std.specs.Prelude.{◌≡◌, ◌∷◌, [], ◌++◌, ◌<◌, ◌≤◌, ◌+◌, ◌^◌, ◌↔◌, ◌⊎◌, ℕ, List};
ghost use Rattle.std.specs.Prelude.{true, false, length, IfOk, IfErr, IfSome, IfNone, OnOk, OnSome};
ghost use Rattle.linda_store_state.specs.State.{IsState};
ghost use Rattle.linda_store_state.specs.DeedFormat.{written};
ghost use Rattle.linda_disk.specs.View.{IsDurable};
ghost use Rattle.linda_disk.specs.Runs.{RunsTo, RunsBeside};
ghost use Rattle.linda_journal.specs.declared.kinds.TheConstants.{CLOSED};
ghost use Rattle.linda_journal.specs.declared.limits.TheConstants.{MIN_BYTES};
ghost use Rattle.linda_journal.specs.Bank.{behind_gate, IsSettled};
ghost use Rattle.linda_journal.specs.Renewal.{pieces, TakesCalls};
ghost use Rattle.linda_snap.specs.Snapshot.{clients_bytes, spell_state, FitsState};
ghost use Rattle.linda_snap.specs.Stands.{IsStored, IsUp};
ghost use Rattle.linda_snap.specs.Switch.{fault_of_disk, renews, switches};

use crate::putting::{put_state, room_after};
use linda_bag::Bag;
use linda_disk::{Disk, DiskFault};
use linda_journal::{Bank, CLOSED, MIN_BYTES, shut, spell_heading, unlock, write_body};
use linda_store_state::State;
use std::alloc::{AllocError, Global};
use thiserror::Error;

/// Why a server did not switch.
#[derive(Clone, Copy, Debug, PartialEq, Eq, Error)]
pub enum SwitchFault {
    /// The new bank would be longer than its limit.
    #[error("the bank is full")]
    BankFull,
    /// The bank in use has the last generation.
    #[error("no generation is left")]
    GenerationsSpent,
    /// No memory.
    #[error("out of memory")]
    Memory,
    /// The device failed, which it counts; both disks are to be opened again.
    #[error("the device failed")]
    Disk,
}

impl From<DiskFault> for SwitchFault {
    ghost from_gives = { λ fault told. told ≡ fault_of_disk fault };

    fn from(fault: DiskFault) -> SwitchFault {
        match fault {
            DiskFault::Device => SwitchFault::Disk,
            DiskFault::Memory => SwitchFault::Memory,
        }
    }
}

/// Makes a new bank of the next generation on the disk that is not in use, whose body is a snapshot
/// of the state and whose journal is empty; and returns it, with the disk of the bank that was in
/// use. That disk is not touched. The new bank is in the form of new banks, whatever the form of
/// the one in use is.
///
/// # Errors
///
/// `BankFull` before all others, then `GenerationsSpent`, then `Memory`: before any device call,
/// and all is handed back as it was. `Disk` if the device failed, and `Memory` if the disk found
/// none: the bank that was in use is handed back spent, and both disks are to be opened again.
pub fn switch<B: Bag, D: Disk>(
    alloc: Global,
    current: Bank<D>,
    other: D,
    state: &State<B>,
) -> Result<(Bank<D>, D), (SwitchFault, Bank<D>, D)>
    requires ranges { IsState state.now }
    requires short { current.limit < 2 ^ 32 }
    requires durable { D.honest other → IsDurable (D.view other) }
    // At Ok the new bank is in use, and represents the state.
    ensures done { D.honest current.disk → D.honest other
        → IsUp current.form current.generation current.end (D.view current.disk) (D.view other)
        state.now
        → IfOk result (λ x.
        IsUp x.0.form x.0.generation x.0.end (D.view x.0.disk) (D.view x.1) state.now) }
    // It represents it on its own disk, also if the disk that was in use is not honest.
    ensures stored { IfOk result (λ x. D.honest x.0.disk
        → IsStored x.0.form x.0.generation x.0.end (D.view x.0.disk) state.now) }
    ensures new { IfOk result (λ x. (x.0.form ≡ written) × (x.0.generation ≡ current.generation + 1)
        × (x.0.limit ≡ current.limit) × (x.0.records ≡ 0) × (x.0.is_spent ≡ false)) }
    // The disk that was in use is not touched.
    ensures same { IfOk result (λ x. x.1 ≡ current.disk)
        × IfErr result (λ e. e.1.disk ≡ current.disk) }
    // It is BankFull exactly if the new bank would be longer than the limit,
    ensures full { IfErr result (λ e. e.0 ≡ SwitchFault.BankFull
        ↔ (current.limit < MIN_BYTES + 1 + length (spell_state written state.now))) }
    ensures room { OnOk result (MIN_BYTES + 1 + length (spell_state written state.now)
        ≤ current.limit) }
    // else GenerationsSpent exactly if no generation is left.
    ensures next { OnOk result (current.generation + 1 < 2 ^ 64) }
    ensures last { IfErr result (λ e. e.0 ≡ SwitchFault.GenerationsSpent
        ↔ (MIN_BYTES + 1 + length (spell_state written state.now) ≤ current.limit)
        × (2 ^ 64 ≤ current.generation + 1)) }
    // All is handed back as it was, or a device call was cut off and the bank is spent.
    ensures refused { IfErr result (λ e.
        (e.0 ≡ SwitchFault.BankFull → (e.1 ≡ current) × (e.2 ≡ other))
        × (e.0 ≡ SwitchFault.GenerationsSpent → (e.1 ≡ current) × (e.2 ≡ other))
        × (e.0 ≡ SwitchFault.Memory → ((e.1 ≡ current) × (e.2 ≡ other)) ⊎ (e.1.is_spent ≡ true))
        × (e.0 ≡ SwitchFault.Disk → e.1.is_spent ≡ true)) }
    // A crash at any moment leaves on the other disk only what represents the state, beside the
    // bank in use. It is a write for each piece of the new bank, a sync, a write and a sync; and
    // first a write and a sync, if the disk's first gate is to be closed.
    ensures runs { RunsBeside D.Disk (λ x. x.0.disk) (switches (D.honest current.disk)
        current.form current.generation current.end (D.view current.disk) state.now)
        (TakesCalls (3 + pieces (MIN_BYTES + length (spell_state written state.now))))
        SwitchFault.Disk other result }
{
    let limit = current.limit();
    let Some(len) = len_within(state, None, limit) else {
        return Err((SwitchFault::BankFull, current, other));
    };
    let Some(generation) = current.generation().checked_add(1) else {
        return Err((SwitchFault::GenerationsSpent, current, other));
    };
    let Ok(bytes) = spell_bank(alloc, generation, state, len) else {
        return Err((SwitchFault::Memory, current, other));
    };
    match renew(other, generation, &bytes, limit) {
        Ok(bank) => Ok((bank, current.into_disk())),
        Err((fault, other)) => {
            let mut current = current;
            current.retire();
            Err((SwitchFault::from(fault), current, other))
        }
    }
}

// Makes a new bank with these bytes after its first gate, on a disk that is not in use.
fn renew<D: Disk>(
    other: D,
    generation: u64,
    bytes: &[u8],
    limit: usize,
) -> Result<Bank<D>, (DiskFault, D)>
    requires low { 1 ≤ generation }
    requires durable { D.honest other → IsDurable (D.view other) }
    ensures done { (body : List ℕ) → length body < 2 ^ 32
        → bytes.now ≡ behind_gate written generation body ++ CLOSED ∷ [] → D.honest other
        → IfOk result (λ b. IsSettled written generation body [] b.end (D.view b.disk)) }
    ensures new { IfOk result (λ b. (b.form ≡ written) × (b.generation ≡ generation)
        × (b.limit ≡ limit)
        × (b.records ≡ 0) × (b.is_spent ≡ false)) }
    ensures runs { RunsTo D.Disk (λ b. b.disk) (renews generation bytes.now)
        (TakesCalls (3 + pieces (length bytes.now))) DiskFault.Device other result }
{
    match shut(other) {
        Err((fault, other)) => Err((fault, other)),
        Ok(closed) => match write_body(closed, generation, bytes) {
            Err((fault, other)) => Err((fault, other)),
            Ok(whole) => match unlock(whole, limit) {
                Err((fault, other)) => Err((fault, other)),
                Ok(bank) => Ok(bank),
            },
        },
    }
}

// How many bytes the state spells; `None` if a new bank for it would be longer than the limit. It
// may be given how many of them its clients spell.
pub(crate) fn len_within<B: Bag>(
    state: &State<B>,
    clients: Option<usize>,
    limit: usize,
) -> Option<usize>
    requires ranges { IsState state.now }
    requires clients { IfSome clients (λ bytes. bytes ≡ clients_bytes state.now.book) }
    ensures exact { IfSome result (λ len. len ≡ length (spell_state written state.now)) }
    ensures fits { OnSome result (MIN_BYTES + 1 + length (spell_state written state.now) ≤ limit) }
    ensures none { IfNone result (limit < MIN_BYTES + 1 + length (spell_state written state.now)) }
{
    let room = limit.checked_sub(MIN_BYTES + 1)?;
    let left = room_after(state, clients, room)?;
    Some(room - left)
}

// What comes after the first gate of a new bank whose body is a snapshot of the state, which spells
// so many bytes.
fn spell_bank<B: Bag>(
    alloc: Global,
    generation: u64,
    state: &State<B>,
    len: usize,
) -> Result<Vec<u8>, AllocError>
    requires ranges { IsState state.now }
    requires exact { len ≡ length (spell_state written state.now) }
    requires short { length (spell_state written state.now) < 2 ^ 32 }
    ensures bytes { IfOk result (λ v. v.items
        ≡ behind_gate written generation (spell_state written state.now) ++ CLOSED ∷ []) }
    ensures fits { OnOk result (FitsState written state.now) }
{
    let mut out = spell_heading(alloc, generation, len)?;
    put_state(&mut out, state)?;
    out.push(CLOSED)?;
    Ok(out)
}
