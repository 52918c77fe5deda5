//! Send and Sync of what threads share and hand on.

use crate::seat::Seat;
use crate::shared::Shared;
use linda_disk::Disk;
use std::sync::ledger::Ledger;

fn wants_send<T: Send>(_x: &T) {}

fn wants_sync<T: Sync>(_x: &T) {}

/// A shared server may be lent to other threads.
pub fn shared_may_be_lent<D: Disk + Send, L: Ledger + Send + Sync>(shared: &Shared<D, L>) {
    wants_sync(shared);
}

/// A seat may cross threads.
pub fn seat_crosses<L: Ledger + Send + Sync>(seat: &Seat<L>) {
    wants_send(seat);
}
