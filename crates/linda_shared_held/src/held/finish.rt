//! The end: all seats are back, and what was reported to them is what was stored.

ghost use Rattle.std.specs.Prelude.{◌≡◌};
ghost use Rattle.linda_shared_held.specs.Parked.{AreBack};
ghost use Rattle.linda_shared_held.specs.Reporting.{Reports};

use super::Held;
use super::leave::put_back_for_good;
use linda_disk::Disk;
use linda_shared_accounts::{Account, Accounts, SharedFault};
use std::sync::ledger::Ledger;

/// What was reported to all seats.
#[derive(Clone, Copy, Debug, PartialEq, Eq)]
pub struct Report {
    /// How many deeds.
    pub deeds: u64,
    /// How many ids were given.
    pub ids: u64,
}

impl<D: Disk, L: Ledger> Held<D, L> {
    /// Parks the given seats for good and returns, once all seats are back, what was reported to
    /// them. That is compared with what was stored: each receipt under the lock with the one of
    /// that number that was reported to its client, if the client still has it, and the last
    /// receipt of each client with the reply that is kept for it.
    ///
    /// # Errors
    ///
    /// `Down` exactly if the server is down, then `SeatMissing` exactly if a seat is out, then
    /// `Receipt` if the receipt that it names differs. The given seats stay parked.
    pub fn finish(&mut self, given: Vec<Account<L>>) -> Result<Report, SharedFault>
        ensures reports { Reports self.old.server self.old.count self.old.receipts.items result
            self.new.accounts.places }
        // In every case the given seats are back for good.
        ensures parked { AreBack self.old.accounts given.items self.new.accounts }
        ensures same { (self.new.opening.value ≡ self.old.opening.value)
            × (self.new.base.value ≡ self.old.base.value)
            × (self.new.receipts.items ≡ self.old.receipts.items)
            × (self.new.count ≡ self.old.count)
            × (self.new.server ≡ self.old.server) × (self.new.boxes ≡ self.old.boxes)
            × (self.new.policy ≡ self.old.policy) × (self.new.recall ≡ self.old.recall) }
    {
        self.park_all(given);
        if self.is_down() {
            return Err(SharedFault::Down);
        }
        if !self.accounts.audit() {
            return Err(SharedFault::SeatMissing);
        }
        self.accounts.compare(self.server.state(), &self.receipts)?;
        let ids = self.server.state().next - 1;
        Ok(Report {
            deeds: self.count,
            ids,
        })
    }

    // These seats come back for good.
    fn park_all(&mut self, given: Vec<Account<L>>)
        ensures parked { AreBack self.old.accounts given.items self.new.accounts }
        ensures same { (self.new.opening.value ≡ self.old.opening.value)
            × (self.new.base.value ≡ self.old.base.value)
            × (self.new.receipts.items ≡ self.old.receipts.items)
            × (self.new.count ≡ self.old.count)
            × (self.new.server ≡ self.old.server) × (self.new.boxes ≡ self.old.boxes)
            × (self.new.policy ≡ self.old.policy) × (self.new.recall ≡ self.old.recall) }
    {
        put_all_back(&mut self.accounts, given);
    }
}

// These come back for good.
fn put_all_back<L: Ledger>(accounts: &mut Accounts<L>, given: Vec<Account<L>>)
    ensures parked { AreBack accounts.old given.items accounts.new }
    ensures total { accounts.new.total ≡ accounts.old.total }
{
    for account in given {
        put_back_for_good(accounts, account);
    }
}
