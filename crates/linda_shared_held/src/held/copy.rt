//! A copy of the clients, made in pieces before a snapshot in steps begins.

ghost use Rattle.std.specs.Prelude.{◌≡◌};

use super::Held;
use linda_disk::Disk;
use std::alloc::Global;
use std::sync::ledger::Ledger;

impl<D: Disk, L: Ledger> Held<D, L> {
    /// Copies the next clients, so many at most, for a snapshot in steps that is begun later, as
    /// `Durable::copy_clients` does. Returns whether nothing is left to copy, or the copy is given
    /// up. Nothing changes that a session sees.
    pub fn copy_clients(&mut self, alloc: Global, most: u32) -> bool
        ensures server { (self.new.server.store ≡ self.old.server.store)
            × (self.new.server.disks ≡ self.old.server.disks)
            × (self.new.server.limit ≡ self.old.server.limit)
            × (self.new.server.down ≡ self.old.server.down)
            × (self.new.server.next ≡ self.old.server.next) }
        ensures same { (self.new.opening.value ≡ self.old.opening.value)
            × (self.new.base.value ≡ self.old.base.value)
            × (self.new.receipts.items ≡ self.old.receipts.items)
            × (self.new.count ≡ self.old.count)
            × (self.new.accounts ≡ self.old.accounts)
            × (self.new.boxes ≡ self.old.boxes)
            × (self.new.policy ≡ self.old.policy)
            × (self.new.recall ≡ self.old.recall) }
    {
        self.server.copy_clients(alloc, most)
    }

    /// Gives up the copy of the clients, if there is one, as `Durable::forget_copy` does. Nothing
    /// changes that a session sees.
    pub fn forget_copy(&mut self)
        ensures server { (self.new.server.store ≡ self.old.server.store)
            × (self.new.server.disks ≡ self.old.server.disks)
            × (self.new.server.limit ≡ self.old.server.limit)
            × (self.new.server.down ≡ self.old.server.down)
            × (self.new.server.next ≡ self.old.server.next) }
        ensures same { (self.new.opening.value ≡ self.old.opening.value)
            × (self.new.base.value ≡ self.old.base.value)
            × (self.new.receipts.items ≡ self.old.receipts.items)
            × (self.new.count ≡ self.old.count)
            × (self.new.accounts ≡ self.old.accounts)
            × (self.new.boxes ≡ self.old.boxes)
            × (self.new.policy ≡ self.old.policy)
            × (self.new.recall ≡ self.old.recall) }
    {
        self.server.forget_copy();
    }
}
