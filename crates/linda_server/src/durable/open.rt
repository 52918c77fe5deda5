//! A server that is opened again on its two disks.

ghost use Rattle.std.specs.Prelude.{◌≡◌};
ghost use Rattle.linda_server.specs.Opening.{fault_of_choice};

use super::Durable;
use crate::disks::{Disks, Pair};
use crate::empty::is_limit;
use crate::fault::OpenFault;
use linda_disk::Disk;
use linda_ghost::Moment;
use linda_snap::{ChoiceFault, Chosen, choose_bank};
use linda_store_step::Store;
use std::alloc::Global;

impl<D: Disk> Durable<D> {
    ghost use Rattle.std.specs.Prelude.{◌⊎◌, ◌↔◌, false, IfOk, IfErr, IsErrOf};
    ghost use Rattle.linda_store_state.specs.State as states;
    ghost use Rattle.linda_store_step.specs.Soft.{no_asks};
    ghost use Rattle.linda_disk.specs.Disk.{TellsFailuresOfTwo};
    ghost use Rattle.linda_snap.specs.Stands.{Stands};
    ghost use Rattle.linda_server.specs.Pairs.{LeavesNoOther, two, TookCalls};
    ghost use Rattle.linda_server.specs.Server.{both_of, BothHonest, StandNow};
    ghost use Rattle.linda_server.specs.Calls.{IsLimit};
    ghost use Rattle.linda_server.specs.Opening.{IsOpenFault};

    /// Opens the server that two disks hold: its state is the one that they represent, nothing is
    /// held and nobody waits. Both disks are synced first; nothing is written.
    ///
    /// # Errors
    ///
    /// `LimitRange` before all others; `NoStore`, `Damaged`, `Disk` if a device failed, `Memory`.
    /// Each hands the disks back, left and right.
    pub fn open(
        alloc: Global,
        left: D,
        right: D,
        limit: usize,
    ) -> Result<Durable<D>, (OpenFault, D, D)>
        // Its state is the one that the disks represent as they read at entry,
        ensures found { D.honest left → D.honest right → IfOk result (λ s.
            Stands (D.view left).seen (D.view right).seen s.store.state) }
        // and crashes leave that now.
        ensures now { IfOk result (λ s. StandNow s.disks s.store.state) }
        ensures new { IfOk result (λ s. (s.store.soft ≡ no_asks) × (s.limit ≡ limit)
            × (s.down ≡ false)) }
        // If they represent a state, that one is opened, or a device failed, or memory ran out.
        ensures only { (st : states.State) → D.honest left → D.honest right → IsLimit limit
            → Stands (D.view left).seen (D.view right).seen st
            → IfOk result (λ s. s.store.state ≡ st)
            × IfErr result (λ e. (e.0 ≡ OpenFault.Disk) ⊎ (e.0 ≡ OpenFault.Memory)) }
        // A fault is one of those bytes, or of the limit.
        ensures fault { D.honest left → D.honest right
            → IfErr result (λ e. IsOpenFault (D.view left).seen (D.view right).seen limit e.0) }
        ensures limit { IfOk result (λ s. IsLimit limit) }
        // The limit is judged before all else: if it is out of range, no device call is made.
        ensures first { (IsLimit limit → ⊥) → IsErrOf result (OpenFault.LimitRange, left, right) }
        // A crash at any moment leaves of a disk only what it could leave at entry.
        ensures any_moment { D.honest left → D.honest right
            → IfOk result (λ s. LeavesNoOther (two (D.view left) (D.view right))
            (both_of s.disks))
            × IfErr result (λ e. LeavesNoOther (two (D.view left) (D.view right))
            (two (D.view e.1) (D.view e.2))) }
        // At Ok one call changed or synced each disk.
        ensures clock { D.honest left → D.honest right
            → IfOk result (λ s. TookCalls 1 1 (two (D.view left) (D.view right))
            (both_of s.disks)) }
        ensures honest { IfOk result (λ s. (D.honest left × D.honest right) ↔ BothHonest s.disks)
            × IfErr result (λ e. (D.honest left × D.honest right)
            ↔ (D.honest e.1 × D.honest e.2)) }
        // A count of failures rises if a device is reported to have failed, and only then.
        ensures cause { IfErr result (λ e. TellsFailuresOfTwo OpenFault.Disk e.0
            (D.failures left) (D.failures right) (D.failures e.1) (D.failures e.2)) }
    {
        if !is_limit(limit) {
            return Err((OpenFault::LimitRange, left, right));
        }
        match choose_bank(alloc, left, right, limit) {
            Err((fault, left, right)) => Err((of_choice(fault), left, right)),
            Ok(chosen) => {
                let Chosen {
                    state,
                    bank,
                    other,
                    is_right,
                } = chosen;
                let store = Store::from_state(alloc, state);
                let before = Moment::of(store.state());
                Ok(Durable {
                    store,
                    disks: Disks::InUse(Pair {
                        bank,
                        other,
                        is_right,
                    }),
                    limit,
                    down: false,
                    before,
                    lost: Vec::new(alloc),
                    next: None,
                    copy: None,
                })
            }
        }
    }
}

// What a server returns if no bank was chosen.
fn of_choice(fault: ChoiceFault) -> OpenFault
    ensures { result ≡ fault_of_choice fault }
{
    match fault {
        ChoiceFault::NoStore => OpenFault::NoStore,
        ChoiceFault::Damaged { right, offset } => OpenFault::Damaged { right, offset },
        ChoiceFault::Disk => OpenFault::Disk,
        ChoiceFault::Memory => OpenFault::Memory,
    }
}
