//! Receipts that are forgotten, once there are many: all of them at once, but their memory is given
//! back a few at a time.

ghost use Rattle.std.specs.Prelude.{◌≡◌, ◌≤◌, ◌<◌, ◌-◌, [], false, true, take, vec_len};
ghost use Rattle.linda_shared_held.specs.declared.limits.TheConstants.{MANY_RECEIPTS};
ghost use Rattle.linda_shared_accounts.specs.Accounts.{AreShortened};
ghost use Rattle.linda_shared_held.specs.Forgetting.{put_behind};

use super::Held;
use crate::limits::MANY_RECEIPTS;
use linda_disk::Disk;
use linda_shared_accounts::SharedReceipt;
use std::alloc::Global;
use std::sync::ledger::Ledger;

impl<D: Disk, L: Ledger> Held<D, L> {
    /// Forgets the receipts if there are 4,096 and the server is up: the state now is the base. For
    /// a program that serves, and never calls `finish`. Nothing changes that a session sees.
    pub fn forget(&mut self, alloc: Global)
        ensures same { (self.new.server ≡ self.old.server)
            × (self.new.opening.value ≡ self.old.opening.value)
            × (self.new.count ≡ self.old.count) × (self.new.boxes ≡ self.old.boxes)
            × (self.new.policy ≡ self.old.policy) }
        // Then the base is the state now, and no place has a younger receipt;
        ensures many { MANY_RECEIPTS ≤ vec_len self.old.receipts → self.old.server.down ≡ false
            → (self.new.base.value ≡ self.new.server.store.state)
            × (self.new.receipts.items ≡ [])
            × AreShortened self.old.accounts.places self.new.accounts.places }
        // else all is as before.
        ensures few { vec_len self.old.receipts < MANY_RECEIPTS
            → (self.new.base.value ≡ self.old.base.value)
            × (self.new.receipts.items ≡ self.old.receipts.items)
            × (self.new.accounts ≡ self.old.accounts)
            × (self.new.recall ≡ self.old.recall) }
        ensures down { self.old.server.down ≡ true
            → (self.new.base.value ≡ self.old.base.value)
            × (self.new.receipts.items ≡ self.old.receipts.items)
            × (self.new.accounts ≡ self.old.accounts)
            × (self.new.recall ≡ self.old.recall) }
        ensures total { self.new.accounts.total ≡ self.old.accounts.total }
    {
        if self.receipts.len() < MANY_RECEIPTS || self.server.is_down() {
            return;
        }
        self.move_base(alloc);
    }

    /// Gives back the memory of so many receipts that were forgotten. Nothing else changes.
    pub fn free_forgotten(&mut self, most: usize)
        ensures gone { self.new.gone.items
            ≡ take (vec_len self.old.gone - most) self.old.gone.items }
        ensures same { (self.new.opening.value ≡ self.old.opening.value)
            × (self.new.base.value ≡ self.old.base.value)
            × (self.new.receipts.items ≡ self.old.receipts.items)
            × (self.new.count ≡ self.old.count)
            × (self.new.accounts ≡ self.old.accounts) × (self.new.server ≡ self.old.server)
            × (self.new.boxes ≡ self.old.boxes) × (self.new.policy ≡ self.old.policy)
            × (self.new.recall ≡ self.old.recall) }
    {
        let left = self.gone.len().saturating_sub(most);
        self.gone.truncate(left);
    }
}

/// The receipts are forgotten. Their memory is not given back yet, unless some that were forgotten
/// before have theirs still.
pub(super) fn put_away(receipts: &mut Vec<SharedReceipt>, gone: &mut Vec<SharedReceipt>)
    ensures none { receipts.new.items ≡ [] }
    ensures gone { gone.new.items ≡ put_behind gone.old.items receipts.old.items }
{
    if gone.is_empty() {
        std::mem::swap(receipts, gone);
    } else {
        receipts.clear();
    }
}
