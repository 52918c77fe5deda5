//! Send of what goes between sessions.

use crate::mailbox::Mailbox;
use crate::outlet::Outlet;
use crate::queue::Queue;
use crate::router::Router;
use std::alloc::Global;
use std::sync::Arc;
use std::sync::ledger::Ledger;

fn wants_send<T: Send>(_x: &T) {}

/// A mailbox may be shared with other threads.
pub fn mailbox_crosses<L: Ledger + Send + Sync>(mailbox: &Arc<Mailbox<L>, Global>) {
    wants_send(mailbox);
}

/// An outlet may cross threads.
pub fn outlet_crosses<L: Ledger + Send + Sync>(outlet: &Outlet<L>) {
    wants_send(outlet);
}

/// The router may cross threads.
pub fn router_crosses<L: Ledger + Send + Sync>(router: &Router<L>) {
    wants_send(router);
}

/// The queue may cross threads.
pub fn queue_crosses<L: Ledger + Send + Sync>(queue: &Queue<L>) {
    wants_send(queue);
}
