//! Commits of deeds to the bank in use.

ghost use Rattle.std.specs.Prelude.{◌≡◌, ◌<◌, ◌≤◌, ◌+◌, ◌↔◌, ◌⊎◌, ◌≢◌, [], true, length, All};
ghost use Rattle.std.specs.Prelude.{IfErr, OnOk, IsErrOf};
ghost use Rattle.linda_store_state.specs.DeedFormat.{payload, SuitsForm};
ghost use Rattle.linda_store_state.specs.State as state;
ghost use Rattle.linda_disk.specs.Disk.{TellsFailures};
ghost use Rattle.linda_store_step.specs.declared.size.TheConstants.{MAX_GROUP};
ghost use Rattle.linda_server.specs.Pairs.{PairsSince};
ghost use Rattle.linda_server.specs.Server.{both_of, is_usable, form_in_use, end_in_use};
ghost use Rattle.linda_server.specs.Server.{limit_in_use};
ghost use Rattle.linda_server.specs.Server.{BothHonest, failures_of, IsUpFor, IsKeptFor, IsPutOn};
ghost use Rattle.linda_server.specs.Server.{IsBesideStill};
ghost use Rattle.linda_server.specs.Disks.{is_there};
ghost use Rattle.linda_server.specs.Calls.{LeadTo, IsOldOrNew, room_for};

use crate::disks::{Disks, Pair};
use crate::fault::ServeFault;
use linda_disk::Disk;
use linda_journal::{Bank, BankFault};
use linda_store_state::Deed;
use std::alloc::Global;

/// Puts the deeds, if there are any, onto the bank in use, all at once, in as many records as they
/// take.
///
/// # Errors
///
/// `Disk` if the device failed, and `Memory`: all records are there or none is, and the bank is not
/// to be used.
pub(crate) fn commit<D: Disk>(
    disks: &mut Disks<Bank<D>, D>,
    alloc: Global,
    deeds: &[Deed],
) -> Result<(), ServeFault>
    requires few { length deeds.now ≤ MAX_GROUP }
    requires ready { is_usable disks.old ≡ true }
    requires suit { All (SuitsForm (form_in_use disks.old)) deeds.now }
    requires room { 0 < length deeds.now
        → end_in_use disks.old
        + room_for (length deeds.now) (length (payload (form_in_use disks.old) deeds.now))
        ≤ limit_in_use disks.old }
    // Crashes at any moment leave the old state, or the one after all of these deeds;
    ensures any_moment { (st new : state.State)
        → BothHonest disks.old
        → IsUpFor disks.old st
        → LeadTo st deeds.now new
        → PairsSince (both_of disks.old) (both_of disks.new) (IsOldOrNew st new) }
    // at Ok they leave the latter.
    ensures kept { (st new : state.State)
        → IsKeptFor disks.old st
        → LeadTo st deeds.now new
        → OnOk result (IsKeptFor disks.new new) }
    ensures there { is_there disks.old ≡ true → is_there disks.new ≡ true }
    ensures ready { OnOk result (is_usable disks.new ≡ true) }
    ensures limit { limit_in_use disks.new ≡ limit_in_use disks.old }
    // If there are none, no device call is made.
    ensures idle { deeds.now ≡ [] → disks.new ≡ disks.old }
    // Else four calls change or sync the disk of the bank in use, and the other disk is not
    // touched.
    ensures clock { 0 < length deeds.now → OnOk result (IsPutOn disks.old disks.new) }
    ensures beside { OnOk result (IsBesideStill disks.old disks.new) }
    ensures honest { BothHonest disks.old ↔ BothHonest disks.new }
    ensures cause { IfErr result (λ fault. TellsFailures ServeFault.Disk fault
        (failures_of disks.old) (failures_of disks.new)) }
    ensures known { (IsErrOf result ServeFault.Full → ⊥) × (IsErrOf result ServeFault.Down → ⊥) }
{
    if deeds.is_empty() {
        return Ok(());
    }
    match disks {
        Disks::InUse(pair) => match pair.bank.append_all(alloc, deeds) {
            Ok(()) => Ok(()),
            Err(fault) => Err(told(fault)),
        },
        Disks::Shut { .. } | Disks::Away => Err(ServeFault::Memory),
    }
}

// What a server returns for a bank's fault: for all but `Memory`, that a device failed.
fn told(fault: BankFault) -> ServeFault
    ensures disk { result ≡ ServeFault.Disk → fault ≢ BankFault.Memory }
    ensures others { result ≢ ServeFault.Disk → fault ≢ BankFault.Disk }
    ensures known { (result ≡ ServeFault.Disk) ⊎ (result ≡ ServeFault.Memory) }
{
    match fault {
        BankFault::Memory => ServeFault::Memory,
        _ => ServeFault::Disk,
    }
}
