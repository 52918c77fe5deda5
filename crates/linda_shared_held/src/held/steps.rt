//! A snapshot in steps, while sessions go on between them. It moves the base once its bank is in
//! use.

ghost use Rattle.std.specs.Prelude.{◌≡◌, ◌≢◌, [], IfOk, OnOk, OnErr, IsErrOf};
ghost use Rattle.linda_server.specs.Handled.{HasNoNextBank, HasBegun, CameTo};
ghost use Rattle.linda_server.specs.Server.{end_in_use, records_in_use};
ghost use Rattle.linda_shared_accounts.specs.Accounts.{AreShortened};
ghost use Rattle.linda_shared_held.specs.SnapshotPolicy.{policy_from, tried_at};
ghost use Rattle.linda_shared_held.specs.Snapshot.{TakesStep};

use super::Held;
use super::base::{fault_of, new_policy};
use linda_disk::Disk;
use linda_server::{Durable, Progress};
use linda_shared_accounts::SharedFault;
use std::alloc::Global;
use std::sync::ledger::Ledger;

impl<D: Disk, L: Ledger> Held<D, L> {
    /// Begins a snapshot in steps. What is done from now on is noted for it; if that cannot be, it
    /// is given up.
    ///
    /// # Errors
    ///
    /// `Down` before all, and exactly if the server is down. `Full`, exactly if there is no next
    /// bank for its state: nothing changed, but that one was tried.
    pub fn begin_snapshot(&mut self, alloc: Global) -> Result<(), SharedFault>
        ensures takes { TakesStep self.old.server result self.new.server }
        // At Ok one is begun, beside the bank in use; it is Full exactly if there is no next bank.
        ensures begun { OnOk result (HasBegun self.old.server self.new.server) }
        ensures full { IsErrOf result SharedFault.Full
            → (self.new.server ≡ self.old.server) × HasNoNextBank self.old.server }
        ensures room { OnOk result (HasNoNextBank self.old.server → ⊥) }
        ensures same { (self.new.opening.value ≡ self.old.opening.value)
            × (self.new.base.value ≡ self.old.base.value)
            × (self.new.receipts.items ≡ self.old.receipts.items)
            × (self.new.count ≡ self.old.count)
            × (self.new.accounts ≡ self.old.accounts)
            × (self.new.boxes ≡ self.old.boxes)
            × (self.new.recall ≡ self.old.recall) }
        ensures tried { self.new.policy
            ≡ tried_at (records_in_use self.old.server.disks) (end_in_use self.old.server.disks)
            self.old.policy }
    {
        self.policy
            .record_attempt(self.server.records(), self.server.used());
        begin_snapshot(&mut self.server, alloc)
    }

    /// Takes the next step of a snapshot, which writes about so many bytes at most. With the last
    /// one its bank is in use, and the receipts begin anew, as with `snapshot`.
    ///
    /// # Errors
    ///
    /// `Down` before all, and exactly if the server is down.
    pub fn continue_snapshot(&mut self, alloc: Global, most: usize) -> Result<Progress, SharedFault>
        ensures takes { TakesStep self.old.server result self.new.server }
        ensures never_full { IsErrOf result SharedFault.Full → ⊥ }
        // It is `Idle` exactly if none is begun, and at `Done` the new bank is in use.
        ensures came { IfOk result (CameTo most self.old.server self.new.server) }
        // At `Done` the base is the state now, no place has a younger receipt, and the policy is
        // that of a new bank;
        ensures done { IfOk result (λ progress. progress ≡ Progress.Done
            → (self.new.base.value ≡ self.new.server.store.state)
            × (self.new.receipts.items ≡ [])
            × AreShortened self.old.accounts.places self.new.accounts.places
            × (self.new.policy ≡ policy_from (end_in_use self.new.server.disks)
            (end_in_use self.new.server.disks))) }
        // else these are as before.
        ensures going { IfOk result (λ progress. progress ≢ Progress.Done
            → (self.new.base.value ≡ self.old.base.value)
            × (self.new.receipts.items ≡ self.old.receipts.items)
            × (self.new.accounts ≡ self.old.accounts)
            × (self.new.policy ≡ self.old.policy) × (self.new.recall ≡ self.old.recall)) }
        ensures err { OnErr result ((self.new.base.value ≡ self.old.base.value)
            × (self.new.receipts.items ≡ self.old.receipts.items)
            × (self.new.accounts ≡ self.old.accounts)
            × (self.new.policy ≡ self.old.policy) × (self.new.recall ≡ self.old.recall)) }
        ensures same { (self.new.opening.value ≡ self.old.opening.value)
            × (self.new.count ≡ self.old.count) × (self.new.boxes ≡ self.old.boxes) }
        ensures total { self.new.accounts.total ≡ self.old.accounts.total }
    {
        let progress = continue_snapshot(&mut self.server, alloc, most)?;
        match progress {
            Progress::Done => {
                self.move_base(alloc);
                self.policy = new_policy(&self.server);
                self.room.begin_anew();
            }
            Progress::Idle | Progress::Going => {}
        }
        Ok(progress)
    }
}

// Begins a snapshot. What is known of a server that did not is as before.
fn begin_snapshot<D: Disk>(server: &mut Durable<D>, alloc: Global) -> Result<(), SharedFault>
    ensures takes { TakesStep server.old result server.new }
    ensures begun { OnOk result (HasBegun server.old server.new) }
    ensures full { IsErrOf result SharedFault.Full
        → (server.new ≡ server.old) × HasNoNextBank server.old }
    ensures room { OnOk result (HasNoNextBank server.old → ⊥) }
{
    match server.begin_snapshot(alloc) {
        Ok(()) => Ok(()),
        Err(fault) => Err(fault_of(fault)),
    }
}

// Takes a step of one, likewise.
fn continue_snapshot<D: Disk>(
    server: &mut Durable<D>,
    alloc: Global,
    most: usize,
) -> Result<Progress, SharedFault>
    ensures takes { TakesStep server.old result server.new }
    ensures never_full { IsErrOf result SharedFault.Full → ⊥ }
    ensures came { IfOk result (CameTo most server.old server.new) }
{
    match server.continue_snapshot(alloc, most) {
        Ok(progress) => Ok(progress),
        Err(fault) => Err(fault_of(fault)),
    }
}
