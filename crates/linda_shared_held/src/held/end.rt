//! The server by itself.

ghost use Rattle.std.specs.Prelude.{◌≡◌};

use super::Held;
use linda_disk::Disk;
use linda_server::Durable;
use std::sync::ledger::Ledger;

impl<D: Disk, L: Ledger> Held<D, L> {
    /// The server by itself. What waits in the outboxes goes, with the receipts and the count.
    pub fn into_server(self) -> Durable<D>
        ensures { result ≡ self.server }
    {
        let Held { server, .. } = self;
        server
    }
}
