//! Server under its lock, and the group commit of several sessions.

mod age;
mod alone;
mod base;
mod copy;
mod drain;
mod end;
mod finish;
mod forget;
mod give_up;
mod greet;
mod kinds;
mod leave;
mod list;
mod longest;
mod measure;
mod preallocation;
mod recall;
mod room;
mod serve;
mod settle;
mod steps;
mod take;

ghost use Rattle.std.specs.Prelude.{◌≡◌, ℕ, ◌+◌, ◌<◌, ◌≤◌, ◌++◌, [], false, length};
ghost use Rattle.std.specs.Prelude.{map, reverse};
ghost use Rattle.std.specs.Prelude.{replicate};
ghost use Rattle.std.specs.Prelude.{vec_len, vec_capacity, None, IfErr, OnOk, OnErr};
ghost use Rattle.linda_store_step.specs.declared.size.TheConstants.{MAX_GROUP};
ghost use Rattle.linda_shared_held.specs.Order.{known, IsInOrder};
ghost use Rattle.linda_shared_held.specs.Covered.{BoxesCovered};
ghost use Rattle.linda_shared_held.specs.Kept.{kept, Asks, Fails};
ghost use Rattle.linda_shared_held.specs.SnapshotPolicy.{policy_from};
ghost use Rattle.linda_shared_held.specs.Recall.{Remembers};
ghost use Rattle.linda_shared_held.specs.Posted.{IsHandled, WentSome};
ghost use Rattle.linda_shared_outbox.specs.Waiting.{waits_for};
ghost use Rattle.linda_server.specs.Server.{end_in_use};
ghost use Rattle.linda_shared_accounts.specs.Accounts.{accounts_of};
ghost use Rattle.linda_shared_accounts.specs.declared.limits.TheConstants.{PARTS};
ghost use Rattle.std.specs.FinMap as fin;

use crate::room::Room;
use crate::snapshot_policy::SnapshotPolicy;
pub use finish::Report;
use linda_bag::IndexBag;
use linda_disk::Disk;
use linda_ghost::Moment;
use linda_server::Durable;
use linda_shared_accounts::{Accounts, Ack, Effect, PendingAck, SharedFault, SharedReceipt};
use linda_shared_outbox::Outboxes;
use linda_store_state::State;
use linda_wire::Message;
use recall::Recall;
use settle::{fail_all, settle_all};
use std::alloc::Global;
use std::sync::ledger::{Blank, Ledger};
use take::take;

/// The server, the receipts of its deeds since the base, and the ledger of how many deeds were
/// reported to each client.
#[derive(Drop)]
pub struct Held<D: Disk, L: Ledger> {
    server: Durable<D>,
    // The state when it was made, which only contracts see.
    opening: Moment<State<IndexBag>>,
    // The state at the last snapshot, or when it was made.
    base: Moment<State<IndexBag>>,
    receipts: Vec<SharedReceipt>,
    // Receipts from before the base, whose memory is given back a few at a time.
    gone: Vec<SharedReceipt>,
    count: u64,
    accounts: Accounts<L>,
    ghost in_order: { ∥ IsInOrder opening.value base.value receipts.items count server.down
        (known server.before.value server.store server.down) ∥₁ },
    // For each client that has an outbox the replies that wait there, in order.
    boxes: Outboxes,
    policy: SnapshotPolicy,
    room: Room,
    recall: Recall,
    // What is remembered for a client was kept for it at the base.
    ghost remembers: { ∥ Remembers base.value recall ∥₁ },
    ghost counted: { accounts.total ≡ count },
    ghost covered: { ∥ BoxesCovered (known server.before.value server.store server.down)
        (waits_for boxes) ∥₁ },
}

impl<D: Disk, L: Ledger> Held<D, L> {
    /// A server of which nothing was reported yet.
    pub fn new(alloc: Global, server: Durable<D>, blank: Blank) -> Held<D, L>
        requires up { server.down ≡ false }
        requires blank { (blank.name ≡ L.name) × (blank.parts ≡ L.parts) × (L.parts ≡ PARTS) }
        ensures server { result.server ≡ server }
        ensures base { (result.base.value ≡ server.store.state)
            × (result.opening.value ≡ server.store.state) }
        ensures none { (result.receipts.items ≡ []) × (result.count ≡ 0)
            × ((c : ℕ) → waits_for result.boxes c ≡ None) }
        ensures accounts { result.accounts ≡ accounts_of 0 fin.empty }
        // Bytes are counted from what the bank has.
        ensures policy { result.policy ≡ policy_from 0 (end_in_use server.disks) }
    {
        let opening = Moment::of(server.state());
        let base = Moment::of(server.state());
        let policy = SnapshotPolicy::new(0, server.used());
        Held {
            server,
            opening,
            base,
            receipts: Vec::new(alloc),
            gone: Vec::new(alloc),
            count: 0,
            accounts: Accounts::new(alloc, blank),
            boxes: Outboxes::new(alloc),
            policy,
            room: Room::unkept(),
            recall: Recall::new(alloc),
        }
    }

    /// Does what was asked, and writes into the ledger what is reported of each message: all in one
    /// call of the server, or one message after another if it has no room for all of them, or if
    /// the count of deeds could pass its last value.
    ///
    /// # Errors
    ///
    /// `Down` before all, and exactly if the server is down: no deed is reported, and one that was
    /// down is as before. `Memory`: nothing changed, but that a snapshot may be asked for.
    pub fn handle_all<A: Drop>(
        &mut self,
        alloc: Global,
        messages: &[(u32, Message)],
        asked: &mut Vec<PendingAck<A, L>>,
        answered: &mut Vec<Ack<A, L>>,
    ) -> Result<(), SharedFault>
        requires few { length messages.now ≤ MAX_GROUP }
        requires one_each { length messages.now ≡ vec_len asked.old }
        requires room { vec_len answered.old + vec_len asked.old ≤ vec_capacity answered.old }
        ensures asked { (vec_len asked.new ≡ 0)
            × (vec_capacity asked.new ≡ vec_capacity asked.old) }
        ensures answered { (vec_len answered.new ≡ vec_len answered.old + vec_len asked.old)
            × (vec_capacity answered.new ≡ vec_capacity answered.old) }
        // At Ok each was answered as the server's step says, and each deed has its receipt;
        ensures done { OnOk result (IsHandled self.old.server self.old.count messages.now
            self.old.receipts.items (waits_for self.old.boxes)
            (map (λ a. a.told) answered.old.items)
            self.new.receipts.items (waits_for self.new.boxes)
            (map (λ a. a.told) answered.new.items)
            self.new.server) }
        ensures addresses { map (λ a. a.address) answered.new.items
            ≡ map (λ a. a.address) answered.old.items
            ++ reverse (map (λ a. a.address) asked.old.items) }
        // else no deed was reported; what is posted was sent by some first messages that went one
        // by one.
        ensures err { OnErr result ((self.new.receipts.items ≡ self.old.receipts.items)
            × (self.new.count ≡ self.old.count)) }
        ensures some { OnErr result (WentSome self.old.server self.old.count messages.now
            (waits_for self.old.boxes) (waits_for self.new.boxes)) }
        // It is Down before all, and exactly if the server is down; if memory ran out, nothing
        // changed.
        ensures fails { Fails (kept self.old.server self.old.receipts self.old.boxes) result
            (kept self.new.server self.new.receipts self.new.boxes) }
        ensures failed { IfErr result (λ fault. map (λ a. a.told) answered.new.items
            ≡ map (λ a. a.told) answered.old.items
            ++ replicate (vec_len asked.old) (Effect.Failed fault)) }
        ensures base { (self.new.base.value ≡ self.old.base.value)
            × (self.new.opening.value ≡ self.old.opening.value) }
        // No seat comes or goes.
        ensures places { self.new.accounts.places ≡ self.old.accounts.places }
        ensures recall { self.new.recall ≡ self.old.recall }
        // If the server has no room for all of them, a snapshot is tried once there is a record
        // that the last try did not find.
        ensures asks { Asks self.old.server self.old.count messages.now self.old.policy result
            self.new.policy }
    {
        let _ = self.is_down();
        let Held {
            server,
            receipts,
            count,
            accounts,
            boxes,
            policy,
            ..
        } = self;
        match take(server, receipts, boxes, policy, alloc, *count, messages) {
            Ok(mut told) => {
                settle_all(accounts, count, asked, answered, &mut told);
                Ok(())
            }
            Err(fault) => {
                fail_all(accounts, asked, answered, fault);
                Err(fault)
            }
        }
    }
}
