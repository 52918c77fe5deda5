//! Comparison of what was reported to sessions with what was stored.

ghost use Rattle.std.specs.Prelude.{◌≡◌, ◌↔◌, ℕ, true, false, All, OnOk, IfErr, IfSome, Some};
ghost use Rattle.std.specs.FinMap as map;
ghost use Rattle.linda_shared_accounts.specs.Receipts.{client_in, number_in, IsKept};
ghost use Rattle.linda_shared_accounts.specs.Accounts.{receipts_at, IsPlaceOf};
ghost use Rattle.linda_shared_accounts.specs.Agreement.{HasRival};
ghost use Rattle.linda_shared_accounts.specs.Compare.{IsToldSo, ring_for, LastIsKept, Names};
ghost use Rattle.linda_shared_accounts.specs.Compare.{NamesAnother, NamesLast, NamesNotKept};

use super::Accounts;
use crate::fault::SharedFault;
use crate::place::Place;
use crate::places::Places;
use crate::shared_receipt::SharedReceipt;
use linda_bag::IndexBag;
use linda_store_state::State;
use std::sync::ledger::Ledger;

impl<L: Ledger> Accounts<L> {
    /// Compares what was reported to the parked seats with what was stored. Each of these receipts
    /// is compared with the one of that number that was reported to its client, if the client still
    /// has it; then the last receipt of each client with what the book keeps for it.
    ///
    /// # Errors
    ///
    /// Only `Receipt`: the receipt that it names differs.
    pub fn compare(
        &self,
        state: &State<IndexBag>,
        receipts: &[SharedReceipt],
    ) -> Result<(), SharedFault>
        ensures told { OnOk result (All (IsToldSo self.now.places) receipts.now) }
        ensures kept { OnOk result ((c : ℕ)
            → LastIsKept state.now (receipts_at (map.get self.now.places c))) }
        ensures fault { IfErr result (Names self.now.places state.now receipts.now) }
    {
        self.compare_all(receipts)?;
        self.places.compare_last(state)
    }

    // Compares each receipt with the one of that number that was reported to its client, if the
    // client still has it.
    fn compare_all(&self, receipts: &[SharedReceipt]) -> Result<(), SharedFault>
        ensures told { OnOk result (All (IsToldSo self.now.places) receipts.now) }
        ensures fault { IfErr result (NamesAnother self.now.places receipts.now) }
    {
        for receipt in receipts {
            if !self.agrees(receipt) {
                return Err(fault_of(receipt));
            }
        }
        Ok(())
    }

    // Whether its client has this receipt, if it still has one of that number.
    fn agrees(&self, receipt: &SharedReceipt) -> bool
        ensures agrees { result ≡ true → IsToldSo self.now.places receipt.now }
        ensures differs { result ≡ false → HasRival (ring_for self.now.places receipt.now)
            receipt.now }
        ensures own { All (λ mine. client_in mine ≡ client_in receipt.now)
            (ring_for self.now.places receipt.now) }
    {
        match self.places.get(receipt.client()) {
            Some(Place::Parked { ring, .. }) => ring.agrees(receipt),
            _ => true,
        }
    }
}

impl Places {
    // Compares the last receipt that was reported to each client with what the book keeps for it.
    fn compare_last(&self, state: &State<IndexBag>) -> Result<(), SharedFault>
        requires { (c : ℕ) → IfSome (map.get self.now c) (IsPlaceOf c) }
        ensures kept { OnOk result ((c : ℕ)
            → LastIsKept state.now (receipts_at (map.get self.now c))) }
        ensures fault { IfErr result (NamesNotKept self.now state.now) }
    {
        for (_client, place) in &self.entries {
            compare_place(state, place)?;
        }
        Ok(())
    }
}

// Compares the last receipt that is parked here with what the book keeps for its client.
fn compare_place(state: &State<IndexBag>, place: &Place) -> Result<(), SharedFault>
    ensures kept { OnOk result (LastIsKept state.now (receipts_at (Some place.now))) }
    ensures fault { IfErr result (NamesLast state.now (receipts_at (Some place.now))) }
{
    let Place::Parked { ring, .. } = place else {
        return Ok(());
    };
    let Some(last) = ring.last() else {
        return Ok(());
    };
    if is_kept(state, last) {
        Ok(())
    } else {
        Err(fault_of(last))
    }
}

// Whether it is what the book keeps for its client.
fn is_kept(state: &State<IndexBag>, mine: &SharedReceipt) -> bool
    ensures { (result ≡ true) ↔ IsKept state.now mine.now }
{
    match state.book.kept(mine.client()) {
        Some((n, reply)) => n == mine.number() && *reply == mine.get().reply,
        None => false,
    }
}

// The fault that names a receipt.
fn fault_of(receipt: &SharedReceipt) -> SharedFault
    ensures { result ≡ SharedFault.Receipt (client_in receipt.now) (number_in receipt.now) }
{
    SharedFault::Receipt {
        client: receipt.client(),
        number: receipt.number(),
    }
}
