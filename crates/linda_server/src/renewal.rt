//! Renewal: the disk that is not in use becomes a new bank, which is then in use.

ghost use Rattle.std.specs.Prelude.{◌≡◌, ◌<◌, ◌^◌, ◌↔◌, ◌⊎◌, true, OnOk, IsErrOf};
ghost use Rattle.linda_store_state.specs.State.{IsState};
ghost use Rattle.linda_server.specs.Server.{is_usable, generation_in_use, limit_in_use};
ghost use Rattle.linda_server.specs.Server.{IsRenewedBy, RunsOnBoth};
ghost use Rattle.linda_server.specs.Switch.{HasNoNext, IsOtherDurable, IsSwitched, snapshot_calls};

use crate::disks::{Disks, Pair};
use crate::fault::ServeFault;
use linda_bag::Bag;
use linda_disk::Disk;
use linda_journal::Bank;
use linda_snap::{SwitchFault, switch};
use linda_store_state::State;
use std::alloc::Global;

/// Makes a new bank of the next generation on the disk that is not in use, whose body is a snapshot
/// of the state, and takes it into use.
///
/// # Errors
///
/// `Full` if the new bank would pass its limit or no generation is left: nothing changed. `Disk` if
/// the device failed, and `Memory`: neither bank is to be used.
pub(crate) fn renew<B: Bag, D: Disk>(
    disks: &mut Disks<Bank<D>, D>,
    alloc: Global,
    state: &State<B>,
) -> Result<(), ServeFault>
    requires ranges { IsState state.now }
    requires ready { is_usable disks.old ≡ true }
    requires short { limit_in_use disks.old < 2 ^ 32 }
    requires durable { IsOtherDurable disks.old }
    // Crashes at any moment leave the state.
    ensures runs { RunsOnBoth (Unit {0}) state.now ServeFault.Disk disks.old result disks.new }
    // At Ok the new bank is in use.
    ensures switched { OnOk result (IsSwitched disks.old disks.new) }
    // It is a write for each piece of the new bank, a sync, a write and a sync; and first a write
    // and a sync, if the disk's first gate is to be closed.
    ensures clock { OnOk result (IsRenewedBy (snapshot_calls state.now) disks.old disks.new) }
    // It is Full only if there is no next bank for the state, and nothing changed then; at Ok there
    // is one.
    ensures full { IsErrOf result ServeFault.Full → (disks.new ≡ disks.old)
        × HasNoNext state.now (limit_in_use disks.old)
        (generation_in_use disks.old) }
    ensures room { OnOk result (HasNoNext state.now (limit_in_use disks.old)
        (generation_in_use disks.old) → ⊥) }
    ensures known { IsErrOf result ServeFault.Down → ⊥ }
{
    let Pair {
        bank,
        other,
        is_right,
    } = disks.lend();
    match switch(alloc, bank, other, state) {
        Ok((bank, other)) => {
            *disks = Disks::InUse(Pair {
                bank,
                other,
                is_right: !is_right,
            });
            Ok(())
        }
        Err((fault, bank, other)) => {
            *disks = Disks::InUse(Pair {
                bank,
                other,
                is_right,
            });
            Err(of_switch(fault))
        }
    }
}

/// What a server returns for a switch that was not made.
pub(crate) fn of_switch(fault: SwitchFault) -> ServeFault
    ensures full { result ≡ ServeFault.Full
        ↔ (fault ≡ SwitchFault.BankFull) ⊎ (fault ≡ SwitchFault.GenerationsSpent) }
    ensures disk { result ≡ ServeFault.Disk ↔ fault ≡ SwitchFault.Disk }
    ensures known { result ≡ ServeFault.Down → ⊥ }
{
    match fault {
        SwitchFault::BankFull | SwitchFault::GenerationsSpent => ServeFault::Full,
        SwitchFault::Memory => ServeFault::Memory,
        SwitchFault::Disk => ServeFault::Disk,
    }
}
