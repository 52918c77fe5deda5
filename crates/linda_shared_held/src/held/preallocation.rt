//! Room on the bank in use, written while nobody waits for it.

ghost use Rattle.std.specs.Prelude.{◌≡◌, IfOk, IsErrOf};
ghost use Rattle.linda_server.specs.Preallocation.{IsAhead};
ghost use Rattle.linda_shared_held.specs.Snapshot.{TakesStep};

use super::Held;
use super::base::fault_of;
use linda_disk::Disk;
use linda_server::Durable;
use linda_shared_accounts::SharedFault;
use std::alloc::Global;
use std::sync::ledger::Ledger;

impl<D: Disk, L: Ledger> Held<D, L> {
    /// Sees to it that the file of the bank in use has so many bytes, or as many as its limit
    /// allows, as `Durable::preallocate` does; returns whether it has them. Nothing changes that a
    /// session sees.
    ///
    /// # Errors
    ///
    /// `Down` before all, and exactly if the server is down.
    pub fn preallocate(&mut self, alloc: Global, to: usize) -> Result<bool, SharedFault>
        ensures takes { TakesStep self.old.server result self.new.server }
        ensures never_full { IsErrOf result SharedFault.Full → ⊥ }
        // At Ok the bank in use is the same, with more closed gates after its end or none.
        ensures ahead { IfOk result (λ b. IsAhead to b self.old.server.disks
            self.new.server.disks) }
        ensures same { (self.new.opening.value ≡ self.old.opening.value)
            × (self.new.base.value ≡ self.old.base.value)
            × (self.new.receipts.items ≡ self.old.receipts.items)
            × (self.new.count ≡ self.old.count)
            × (self.new.accounts ≡ self.old.accounts)
            × (self.new.boxes ≡ self.old.boxes)
            × (self.new.policy ≡ self.old.policy)
            × (self.new.recall ≡ self.old.recall) }
    {
        preallocate(&mut self.server, alloc, to)
    }
}

// Makes room. What is known of a server that did not is as before.
fn preallocate<D: Disk>(
    server: &mut Durable<D>,
    alloc: Global,
    to: usize,
) -> Result<bool, SharedFault>
    ensures takes { TakesStep server.old result server.new }
    ensures never_full { IsErrOf result SharedFault.Full → ⊥ }
    ensures ahead { IfOk result (λ b. IsAhead to b server.old.disks server.new.disks) }
{
    match server.preallocate(alloc, to) {
        Ok(there) => Ok(there),
        Err(fault) => Err(fault_of(fault)),
    }
}
