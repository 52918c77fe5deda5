//! A new server on two empty disks.

ghost use Rattle.std.specs.Prelude.{◌≡◌, ◌⊎◌, ◌↔◌};

use super::Durable;
use crate::disks::{Disks, Pair};
use crate::empty::{expect_empty, of_device, spell_empty};
use crate::fault::OpenFault;
use linda_disk::Disk;
use linda_ghost::Moment;
use linda_journal::{Bank, BankFault, lay_gate};
use linda_store_step::Store;
use std::alloc::Global;

impl<D: Disk> Durable<D> {
    ghost use Rattle.std.specs.Prelude.{◌<◌, [], false, length, IfOk, IfErr};
    ghost use Rattle.linda_store_state.specs.State.{empty_state};
    ghost use Rattle.linda_disk.specs.Disk.{TellsFailuresOfTwo};
    ghost use Rattle.linda_store_step.specs.Soft.{no_asks};
    ghost use Rattle.linda_server.specs.Pairs.{PairsSince, two, IsVoid, TookCalls};
    ghost use Rattle.linda_server.specs.Server.{both_of, BothHonest, StandNow};
    ghost use Rattle.linda_server.specs.Calls.{IsNothingOr, IsLimit};

    /// Makes a server that was never used on two empty disks: a closed gate on the right one, and
    /// on the left one a new bank of generation 1 with a snapshot of the empty state.
    ///
    /// # Errors
    ///
    /// `NotEmpty`, and `LimitRange` only if both disks are empty: nothing was written. `Disk` if a
    /// device failed, `Memory`: the left disk holds the whole new bank or none. Each hands the
    /// disks back, left and right.
    pub fn create(
        alloc: Global,
        left: D,
        right: D,
        limit: usize,
    ) -> Result<Durable<D>, (OpenFault, D, D)>
        // If both were empty, crashes at any moment leave no bank, or the empty state;
        ensures any_moment { D.honest left → D.honest right → IsVoid (D.view left)
            → IsVoid (D.view right)
            → IfOk result (λ s. PairsSince (two (D.view left) (D.view right))
            (both_of s.disks) (IsNothingOr empty_state))
            × IfErr result (λ e. PairsSince (two (D.view left) (D.view right))
            (two (D.view e.1) (D.view e.2)) (IsNothingOr empty_state)) }
        // at Ok they leave the empty state now.
        ensures now { IfOk result (λ s. StandNow s.disks empty_state) }
        ensures new { IfOk result (λ s. (s.store
            ≡ record { state = empty_state; soft = no_asks; is_spent = false })
            × (s.limit ≡ limit) × (s.down ≡ false)) }
        ensures limit { IfOk result (λ s. IsLimit limit)
            × IfErr result (λ e. e.0 ≡ OpenFault.LimitRange → IsLimit limit → ⊥) }
        // The limit is judged last: LimitRange says that both disks are empty.
        ensures last { D.honest left → D.honest right
            → IfErr result (λ e. e.0 ≡ OpenFault.LimitRange
            → ((D.view left).seen ≡ []) × ((D.view right).seen ≡ [])) }
        ensures empty { D.honest left → D.honest right
            → IfOk result (λ s. ((D.view left).seen ≡ []) × ((D.view right).seen ≡ []))
            × IfErr result (λ e. e.0 ≡ OpenFault.NotEmpty
            → (0 < length (D.view left).seen) ⊎ (0 < length (D.view right).seen)) }
        // At Ok six calls changed or synced the left disk, and two the right one;
        ensures clock { D.honest left → D.honest right
            → IfOk result (λ s. TookCalls 6 2 (two (D.view left) (D.view right))
            (both_of s.disks)) }
        // with NotEmpty and LimitRange none did.
        ensures untouched { D.honest left → D.honest right
            → IfErr result (λ e. (e.0 ≡ OpenFault.NotEmpty) ⊎ (e.0 ≡ OpenFault.LimitRange)
            → TookCalls 0 0 (two (D.view left) (D.view right)) (two (D.view e.1) (D.view e.2))) }
        ensures known { IfErr result (λ e. e.0 ≡ OpenFault.NoStore → ⊥) }
        ensures honest { IfOk result (λ s. (D.honest left × D.honest right) ↔ BothHonest s.disks)
            × IfErr result (λ e. (D.honest left × D.honest right)
            ↔ (D.honest e.1 × D.honest e.2)) }
        // A count of failures rises if a device is reported to have failed, and only then.
        ensures cause { IfErr result (λ e. TellsFailuresOfTwo OpenFault.Disk e.0
            (D.failures left) (D.failures right) (D.failures e.1) (D.failures e.2)) }
    {
        let mut left = left;
        let mut right = right;
        if let Err(fault) = expect_empty(&mut left, &mut right, limit) {
            return Err((fault, left, right));
        }
        let Ok(body) = spell_empty(alloc) else {
            return Err((OpenFault::Memory, left, right));
        };
        if let Err(fault) = lay_gate(&mut right) {
            return Err((of_device(fault), left, right));
        }
        match Bank::create(alloc, left, 1, &body, limit) {
            Err((fault, left)) => Err((of_bank(fault), left, right)),
            Ok(bank) => {
                let store = Store::new(alloc);
                let before = Moment::of(store.state());
                Ok(Durable {
                    store,
                    disks: Disks::InUse(Pair {
                        bank,
                        other: right,
                        is_right: false,
                    }),
                    limit,
                    down: false,
                    before,
                    lost: Vec::new(alloc),
                    next: None,
                    copy: None,
                })
            }
        }
    }
}

// What a server returns for a new bank's fault.
fn of_bank(fault: BankFault) -> OpenFault
    ensures disk { result ≡ OpenFault.Disk ↔ fault ≡ BankFault.Disk }
    ensures known { (result ≡ OpenFault.Disk) ⊎ (result ≡ OpenFault.Memory) }
{
    match fault {
        BankFault::Disk => OpenFault::Disk,
        _ => OpenFault::Memory,
    }
}
