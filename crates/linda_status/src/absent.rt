//! Clients that are away and took a tuple by their last message, counted.

use crate::pause::let_others;
use linda_disk::Disk;
use linda_shared::Shared;
use std::sync::Wait;
use std::sync::ledger::Ledger;
use std::time::Clock;

/// How many clients have no connection and a kept reply that says that they took a tuple: each may
/// have a job unfinished. They are counted a thousand clients at a time, between which others have
/// the server, so the count is of several moments. It is 0 if the server is down.
pub(crate) fn taken_by_absent<D: Disk, L: Ledger, R: Wait + Clock>(
    rt: &R,
    shared: &Shared<D, L>,
) -> u64 {
    let mut clients: u64 = 0;
    let mut from = 0;
    // Each thousand goes further.
    for _ in 0..u32::MAX {
        let Some(count) = shared.count_taken(rt, from) else {
            return 0;
        };
        clients = clients.saturating_add(u64::from(count.clients));
        let Some(next) = count.next else {
            return clients;
        };
        from = next;
        let_others(rt);
    }
    clients
}
