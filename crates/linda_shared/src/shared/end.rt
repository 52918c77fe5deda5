//! The server by itself.

use super::Shared;
use linda_disk::Disk;
use linda_shared_held::Durable;
use std::sync::ledger::Ledger;

impl<D: Disk, L: Ledger> Shared<D, L> {
    /// The server by itself, once no thread shares it any more. What waits in outlets stays there.
    pub fn into_server(self) -> Durable<D> {
        let Shared { locked, .. } = self;
        locked.into_inner().held.into_server()
    }
}
