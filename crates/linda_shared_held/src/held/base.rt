//! Base of the receipts, which a snapshot moves, and what is always so.

ghost use Rattle.std.specs.Prelude.{◌≡◌, ◌+◌, ◌||◌, ◌⊎◌, nat_le, [], false, true};
ghost use Rattle.std.specs.Prelude.{OnOk, OnErr};
ghost use Rattle.linda_store_step.specs.Store.{IsOrderly};
ghost use Rattle.linda_server.specs.declared.limits.TheConstants.{SNAPSHOT_RECORDS};
ghost use Rattle.linda_server.specs.Disks.{is_old};
ghost use Rattle.linda_server.specs.Pairs.{PairsNow};
ghost use Rattle.linda_server.specs.Server.{both_of, form_in_use, end_in_use, records_in_use};
ghost use Rattle.linda_server.specs.Server.{BothHonest, StandNow};
ghost use Rattle.linda_shared_held.specs.Order.{known, IsReplayed, CountsDeeds, StandsBehind};
ghost use Rattle.linda_shared_outbox.specs.Waiting.{waits_for};
ghost use Rattle.linda_shared_accounts.specs.Accounts.{AreShortened};
ghost use Rattle.linda_shared_held.specs.SnapshotPolicy.{is_due, policy_from, deferred_at};
ghost use Rattle.linda_shared_held.specs.SnapshotPolicy.{tried_at};
ghost use Rattle.linda_shared_held.specs.Recall.{Remembers};
ghost use Rattle.linda_store_state.specs.Numbers.{kept_sum};
ghost use Rattle.linda_shared_held.specs.Covered.{BoxesCovered};
ghost use Rattle.linda_shared_held.specs.Snapshot.{TakesSnapshot};

use super::Held;
use super::forget::put_away;
use super::recall::begin_anew;
use crate::snapshot_policy::SnapshotPolicy;
use linda_disk::Disk;
use linda_ghost::Moment;
use linda_server::Durable;
use linda_shared_accounts::SharedFault;
use linda_store::NodeFault;
use std::alloc::Global;
use std::sync::ledger::Ledger;

impl<D: Disk, L: Ledger> Held<D, L> {
    /// Whether the server is down. Its contract says what always holds.
    pub fn is_down(&self) -> bool
        ensures is { result ≡ self.now.server.down }
        // Up: the receipts lead from the base to the state, which the disks represent and in which
        // nobody waits in vain.
        ensures replayed { result ≡ false
            → ∥ IsReplayed self.now.base.value self.now.receipts.items
            self.now.server.store.state ∥₁ }
        ensures orderly { IsOrderly self.now.server.store.state self.now.server.store.soft }
        ensures stands { result ≡ false
            → StandNow self.now.server.disks self.now.server.store.state }
        // Down: all that crashes leave represents the state after the receipts' deeds, and maybe
        // others after them; and in that state what is posted is kept, until the client's next
        // number is.
        ensures down { result ≡ true → BothHonest self.now.server.disks
            → PairsNow (both_of self.now.server.disks)
            (λ left right. ∥ StandsBehind self.now.base.value self.now.receipts.items
            (waits_for self.now.boxes) left right ∥₁) }
        // The count is that of the deeds since it was made, and the total of the ledger.
        ensures counted { result ≡ false
            → ∥ CountsDeeds self.now.opening.value self.now.count self.now.server.store.state ∥₁ }
        ensures kept { result ≡ false → ∥ kept_sum self.now.server.store.state
            ≡ kept_sum self.now.opening.value + self.now.count ∥₁ }
        ensures total { self.now.accounts.total ≡ self.now.count }
        // What is remembered for a client is its last number at the base: so the receipts above it
        // are those that are younger.
        ensures remembers { ∥ Remembers self.now.base.value self.now.recall ∥₁ }
        // What is posted is kept, until the client's next number is.
        ensures covered { ∥ BoxesCovered
            (known self.now.server.before.value self.now.server.store self.now.server.down)
            (waits_for self.now.boxes) ∥₁ }
    {
        self.server.is_down()
    }

    /// Whether a snapshot is due: there are so many records since the last one, or the bank in use
    /// is not in the form of new banks.
    pub fn needs_snapshot(&self) -> bool
        ensures { result ≡ (is_old (form_in_use self.now.server.disks)
            || nat_le SNAPSHOT_RECORDS (records_in_use self.now.server.disks)) }
    {
        self.server.needs_snapshot()
    }

    /// Whether a snapshot pays for itself: there are 1,024 records since the last one or they have
    /// 32 MiB, and they have at least as many bytes as that one left in the bank, or half of the
    /// limit is taken; or the bank in use is not in the form of new banks. After one that was
    /// refused, once there are 1,024 records more, or 32 MiB of them. Or a deed was refused for
    /// room since the last one or since one was last tried, and there is a record that this one did
    /// not find. A server that was opened counts bytes from what the bank has, unless `count_from`
    /// says otherwise.
    pub fn snapshot_due(&self) -> bool
        ensures is { result ≡ is_due (is_old (form_in_use self.now.server.disks))
            self.now.policy.base
            self.now.policy.start self.now.policy.not_before self.now.policy.not_below
            self.now.policy.tried self.now.policy.lacks_room
            (records_in_use self.now.server.disks) (end_in_use self.now.server.disks)
            self.now.server.limit }
    {
        let server = &self.server;
        self.policy.is_due(
            server.is_of_old_form(),
            server.records(),
            server.used(),
            server.limit(),
        )
    }

    /// No snapshot that pays is tried before there are 1,024 records more, or records of `room`
    /// bytes, 32 MiB at most, whichever come first; one that a refused deed asks for is. Nothing
    /// else changes.
    pub fn defer_snapshot(&mut self, room: usize)
        ensures policy { self.new.policy ≡ deferred_at (records_in_use self.old.server.disks)
            (end_in_use self.old.server.disks) room self.old.policy }
        ensures same { (self.new.opening.value ≡ self.old.opening.value)
            × (self.new.base.value ≡ self.old.base.value)
            × (self.new.receipts.items ≡ self.old.receipts.items)
            × (self.new.count ≡ self.old.count)
            × (self.new.accounts ≡ self.old.accounts) × (self.new.server ≡ self.old.server)
            × (self.new.boxes ≡ self.old.boxes)
            × (self.new.recall ≡ self.old.recall) }
    {
        self.policy
            .defer(self.server.records(), self.server.used(), room);
    }

    /// The bank in use took `base` bytes when it was new: its bytes are counted from there on. What
    /// was put off is so no more. Nothing else changes.
    pub fn count_from(&mut self, base: usize)
        ensures policy { self.new.policy ≡ policy_from base base }
        ensures same { (self.new.opening.value ≡ self.old.opening.value)
            × (self.new.base.value ≡ self.old.base.value)
            × (self.new.receipts.items ≡ self.old.receipts.items)
            × (self.new.count ≡ self.old.count)
            × (self.new.accounts ≡ self.old.accounts) × (self.new.server ≡ self.old.server)
            × (self.new.boxes ≡ self.old.boxes)
            × (self.new.recall ≡ self.old.recall) }
    {
        self.policy = SnapshotPolicy::new(base, base);
    }

    /// Takes a snapshot, from which on the receipts begin anew. Only this call, the last
    /// `continue_snapshot` of a snapshot and `forget` move the base. No receipt of a seat is
    /// younger then: seats that came back for a next session keep only their last one.
    ///
    /// # Errors
    ///
    /// `Down` before all, and exactly if the server is down. `Full`, exactly if there is no next
    /// bank for its state: nothing changed, but that one was tried.
    pub fn snapshot(&mut self, alloc: Global) -> Result<(), SharedFault>
        ensures base { OnOk result ((self.new.base.value ≡ self.new.server.store.state)
            × (self.new.receipts.items ≡ [])) }
        ensures kept { OnErr result ((self.new.base.value ≡ self.old.base.value)
            × (self.new.receipts.items ≡ self.old.receipts.items)) }
        ensures takes { TakesSnapshot self.old.server result self.new.server }
        ensures same { (self.new.opening.value ≡ self.old.opening.value)
            × (self.new.count ≡ self.old.count)
            × (self.new.boxes ≡ self.old.boxes) × (self.new.server.limit ≡ self.old.server.limit) }
        // As many deeds were reported in all as before, and each place is as before, or its ring
        // keeps only its last receipt.
        ensures total { self.new.accounts.total ≡ self.old.accounts.total }
        ensures shortened { OnOk result
            (AreShortened self.old.accounts.places self.new.accounts.places) }
        ensures accounts { OnErr result (self.new.accounts ≡ self.old.accounts) }
        // At Ok the policy is that of a new bank, else a snapshot was tried in vain.
        ensures policy { OnOk result
            (self.new.policy ≡ policy_from (end_in_use self.new.server.disks)
            (end_in_use self.new.server.disks)) }
        ensures tried { OnErr result (self.new.policy
            ≡ tried_at (records_in_use self.old.server.disks) (end_in_use self.old.server.disks)
            self.old.policy) }
    {
        self.policy
            .record_attempt(self.server.records(), self.server.used());
        take_snapshot(&mut self.server, alloc)?;
        self.move_base(alloc);
        self.policy = new_policy(&self.server);
        self.room.begin_anew();
        Ok(())
    }

    // The state now is the base, from which on the receipts begin anew.
    pub(super) fn move_base(&mut self, alloc: Global)
        requires up { self.old.server.down ≡ false }
        ensures base { (self.new.base.value ≡ self.new.server.store.state)
            × (self.new.receipts.items ≡ []) }
        ensures same { (self.new.server ≡ self.old.server)
            × (self.new.opening.value ≡ self.old.opening.value)
            × (self.new.count ≡ self.old.count) × (self.new.boxes ≡ self.old.boxes)
            × (self.new.policy ≡ self.old.policy) }
        ensures total { self.new.accounts.total ≡ self.old.accounts.total }
        ensures shortened { AreShortened self.old.accounts.places self.new.accounts.places }
    {
        self.base = Moment::of(self.server.state());
        put_away(&mut self.receipts, &mut self.gone);
        begin_anew(
            &mut self.accounts,
            &mut self.recall,
            &self.boxes,
            alloc,
            self.server.state(),
        );
    }
}

/// The policy of a bank that was taken into use just now.
pub(super) fn new_policy<D: Disk>(server: &Durable<D>) -> SnapshotPolicy
    ensures { result ≡ policy_from (end_in_use server.now.disks) (end_in_use server.now.disks) }
{
    let used = server.used();
    SnapshotPolicy::new(used, used)
}

// Takes a snapshot. What is known of a server that did not is as before.
fn take_snapshot<D: Disk>(server: &mut Durable<D>, alloc: Global) -> Result<(), SharedFault>
    ensures { TakesSnapshot server.old result server.new }
{
    match server.snapshot(alloc) {
        Ok(()) => Ok(()),
        Err(fault) => Err(fault_of(fault)),
    }
}

/// What is reported for a snapshot that was not taken.
pub(super) fn fault_of(fault: NodeFault) -> SharedFault
    ensures full { result ≡ SharedFault.Full → fault ≡ NodeFault.Full }
    ensures down { result ≡ SharedFault.Down → fault ≡ NodeFault.Down }
    ensures known { (result ≡ SharedFault.Full) ⊎ (result ≡ SharedFault.Down) }
{
    match fault {
        NodeFault::Full => SharedFault::Full,
        NodeFault::Down => SharedFault::Down,
    }
}
