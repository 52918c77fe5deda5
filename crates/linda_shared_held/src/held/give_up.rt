//! Giving up: the server goes down in the state that it has.

ghost use Rattle.std.specs.Prelude.{◌≡◌, true};
ghost use Rattle.linda_shared_held.specs.Kept.{IsKnownStill};

use super::Held;
use linda_disk::Disk;
use linda_server::Durable;
use std::sync::ledger::Ledger;

impl<D: Disk, L: Ledger> Held<D, L> {
    /// The server counts as down from now on. It is for a caller that has no memory to pass on what
    /// was reported to it, and so may not go on.
    pub fn give_up(&mut self)
        ensures down { self.new.server.down ≡ true }
        ensures store { self.new.server.store ≡ self.old.server.store }
        ensures same { (self.new.opening.value ≡ self.old.opening.value)
            × (self.new.base.value ≡ self.old.base.value)
            × (self.new.receipts.items ≡ self.old.receipts.items)
            × (self.new.count ≡ self.old.count)
            × (self.new.accounts ≡ self.old.accounts) × (self.new.boxes ≡ self.old.boxes)
            × (self.new.policy ≡ self.old.policy) × (self.new.recall ≡ self.old.recall) }
        ensures disks { (self.new.server.disks ≡ self.old.server.disks)
            × (self.new.server.limit ≡ self.old.server.limit) }
    {
        fall(&mut self.server);
    }
}

// The server counts as down. What is known of it is as before.
fn fall<D: Disk>(server: &mut Durable<D>)
    ensures down { server.new.down ≡ true }
    ensures store { server.new.store ≡ server.old.store }
    ensures disks { (server.new.disks ≡ server.old.disks) × (server.new.limit ≡ server.old.limit) }
    ensures still { IsKnownStill server.old server.new }
{
    server.give_up();
}
