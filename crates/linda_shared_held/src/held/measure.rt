//! Measure of the server, in numbers.

ghost use Rattle.std.specs.Prelude.{◌≡◌, length};
ghost use Rattle.std.specs.FinMap as map;
ghost use Rattle.linda_hold.specs.Holds.{held_in};
ghost use Rattle.linda_server.specs.Server.{end_in_use, records_in_use};

use super::Held;
use crate::gauge::Gauge;
use linda_bag::Bag;
use linda_disk::Disk;
use std::sync::ledger::Ledger;

impl<D: Disk, L: Ledger> Held<D, L> {
    /// The numbers of the server now, for a caller that reports them to its operator. Nothing
    /// changes, and no memory is taken.
    pub fn gauge(&self) -> Gauge
        ensures state { (result.tuples ≡ map.len self.now.server.store.state.bag)
            × (result.clients ≡ map.len self.now.server.store.state.book)
            × (result.next ≡ self.now.server.store.state.next) }
        ensures soft { (result.holds ≡ map.len self.now.server.store.soft.holds)
            × (result.waits ≡ length self.now.server.store.soft.waits) }
        ensures deeds { result.deeds ≡ self.now.count }
        ensures bank { (result.records ≡ records_in_use self.now.server.disks)
            × (result.used ≡ end_in_use self.now.server.disks)
            × (result.limit ≡ self.now.server.limit) }
        ensures down { result.is_down ≡ self.now.server.down }
    {
        let server = &self.server;
        let state = server.state();
        Gauge {
            tuples: state.bag.len(),
            holds: server.holds().len(),
            oldest_hold: server.holds().oldest().unwrap_or(0),
            waits: server.waits().len(),
            oldest_wait: server.waits().oldest().unwrap_or(0),
            clients: state.book.len(),
            next: state.next,
            deeds: self.count,
            records: server.records(),
            used: server.used(),
            limit: server.limit(),
            is_down: server.is_down(),
        }
    }

    /// How many tuples are held for the client. It walks over none of them.
    pub fn holds_of(&self, client: u32) -> usize
        ensures { result ≡ length (held_in client (map.entries self.now.server.store.soft.holds)) }
    {
        self.server.holds().count_of(client)
    }
}
