//! Receipts that the accounts forget of seats that are back, and keep of those that are out.

ghost use Rattle.std.specs.Prelude.{◌≡◌, ◌≢◌, ℕ, IfOk, OnOk};
ghost use Rattle.std.specs.FinMap as map;
ghost use Rattle.linda_shared_accounts.specs.Recall.{AreKept};
ghost use Rattle.linda_shared_accounts.specs.Accounts.{shortened_at};

use super::Accounts;
use crate::place::Place;
use crate::places::Places;
use linda_bag::IndexBag;
use linda_store_state::State;
use std::alloc::{AllocError, Global};
use std::collections::BTreeMap;
use std::sync::ledger::Ledger;

impl<L: Ledger> Accounts<L> {
    /// The ring that is parked for this client keeps only its last receipt, if it is not parked for
    /// good.
    pub fn shorten(&mut self, client: u32)
        ensures total { self.new.total ≡ self.old.total }
        ensures at { map.get self.new.places client
            ≡ shortened_at (map.get self.old.places client) }
        ensures others { (c : ℕ) → c ≢ client
            → map.get self.new.places c ≡ map.get self.old.places c }
    {
        self.places.shorten(client);
    }

    /// For each client whose seat is out the number that the book keeps for it.
    ///
    /// # Errors
    ///
    /// `AllocError` if memory runs out.
    pub fn numbers_out(
        &self,
        alloc: Global,
        state: &State<IndexBag>,
    ) -> Result<BTreeMap<u32, u64>, AllocError>
        ensures { IfOk result (AreKept state.now) }
    {
        self.places.numbers_out(alloc, state)
    }
}

impl Places {
    // For each client whose seat is out the number that the book keeps for it.
    fn numbers_out(
        &self,
        alloc: Global,
        state: &State<IndexBag>,
    ) -> Result<BTreeMap<u32, u64>, AllocError>
        ensures { IfOk result (AreKept state.now) }
    {
        let mut numbers = BTreeMap::new(alloc);
        for (client, place) in &self.entries {
            if let Place::Out = place {
                note(&mut numbers, state, *client)?;
            }
        }
        Ok(numbers)
    }
}

// Notes the number that the book keeps for the client.
fn note(
    numbers: &mut BTreeMap<u32, u64>,
    state: &State<IndexBag>,
    client: u32,
) -> Result<(), AllocError>
    ensures { OnOk result (AreKept state.now numbers.old → AreKept state.now numbers.new) }
{
    numbers.insert(client, state.book.last(client))?;
    Ok(())
}
