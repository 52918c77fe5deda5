//! The present second, for how long something is so.

ghost use Rattle.std.specs.Prelude.{◌≡◌};
ghost use Rattle.linda_shared_outbox.specs.Waiting.{waits_for};

use super::Held;
use linda_disk::Disk;
use std::sync::ledger::Ledger;

impl<D: Disk, L: Ledger> Held<D, L> {
    /// Sets the present second, from which on it is counted how long a tuple is held, an ask waits
    /// and a client has its outbox. Seconds never fall; until one is set nothing is noted. Nothing
    /// changes that a call answers, but those numbers.
    pub fn set_second(&mut self, second: u64)
        ensures store { self.new.server.store ≡ self.old.server.store }
        ensures disks { (self.new.server.disks ≡ self.old.server.disks)
            × (self.new.server.limit ≡ self.old.server.limit)
            × (self.new.server.down ≡ self.old.server.down) }
        ensures boxes { waits_for self.new.boxes ≡ waits_for self.old.boxes }
        ensures same { (self.new.opening.value ≡ self.old.opening.value)
            × (self.new.base.value ≡ self.old.base.value)
            × (self.new.receipts.items ≡ self.old.receipts.items)
            × (self.new.count ≡ self.old.count)
            × (self.new.accounts ≡ self.old.accounts)
            × (self.new.policy ≡ self.old.policy)
            × (self.new.recall ≡ self.old.recall) }
    {
        self.server.set_second(second);
        self.boxes.set_second(second);
    }
}
