//! Draining: what waits in the outboxes is handed out.

ghost use Rattle.std.specs.Prelude.{◌≡◌, ◌≢◌, ℕ};
ghost use Rattle.linda_shared_outbox.specs.Waiting.{waits_for};
ghost use Rattle.linda_shared_outbox.specs.Replies.{handed_out, emptied};
ghost use Rattle.linda_shared_held.specs.Draining.{HandsOutNext};
ghost use Rattle.linda_shared_held.specs.Kept.{KeepCovered};

use super::Held;
use linda_disk::Disk;
use linda_shared_outbox::{Outboxes, Sent};
use linda_wire::Reply;
use std::alloc::Global;
use std::sync::ledger::Ledger;

impl<D: Disk, L: Ledger> Held<D, L> {
    /// What waits for the client, in order. Its outbox is empty then, and nothing else changes.
    pub fn drain(&mut self, alloc: Global, client: u32) -> Vec<Reply>
        ensures out { result.items ≡ handed_out (waits_for self.old.boxes client) }
        ensures empty { waits_for self.new.boxes client
            ≡ emptied (waits_for self.old.boxes client) }
        ensures others { (c : ℕ) → c ≢ client
            → waits_for self.new.boxes c ≡ waits_for self.old.boxes c }
        ensures same { (self.new.opening.value ≡ self.old.opening.value)
            × (self.new.base.value ≡ self.old.base.value)
            × (self.new.receipts.items ≡ self.old.receipts.items)
            × (self.new.count ≡ self.old.count)
            × (self.new.accounts ≡ self.old.accounts) × (self.new.server ≡ self.old.server)
            × (self.new.policy ≡ self.old.policy) × (self.new.recall ≡ self.old.recall) }
    {
        self.boxes.drain(alloc, client)
    }

    /// The replies that wait for some client, at least one; `None` if nothing waits for anybody.
    /// The outbox of that client is empty then, and nothing else changes. Looks only at the
    /// outboxes that something was posted to.
    pub fn drain_next(&mut self, alloc: Global) -> Option<Sent>
        ensures next { HandsOutNext self.old.boxes result self.new.boxes }
        ensures same { (self.new.opening.value ≡ self.old.opening.value)
            × (self.new.base.value ≡ self.old.base.value)
            × (self.new.receipts.items ≡ self.old.receipts.items)
            × (self.new.count ≡ self.old.count)
            × (self.new.accounts ≡ self.old.accounts) × (self.new.server ≡ self.old.server)
            × (self.new.policy ≡ self.old.policy) × (self.new.recall ≡ self.old.recall) }
    {
        drain_some(&mut self.boxes, alloc)
    }
}

// What waits for some client. What is left is covered as before.
fn drain_some(boxes: &mut Outboxes, alloc: Global) -> Option<Sent>
    ensures next { HandsOutNext boxes.old result boxes.new }
    ensures covered { KeepCovered boxes.old boxes.new }
{
    match boxes.drain_next(alloc) {
        Some(next) => Some(next),
        None => None,
    }
}
