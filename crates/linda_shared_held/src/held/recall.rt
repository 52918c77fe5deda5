//! Memory of seats from one snapshot to the next, so that those that are back keep no more than
//! they need.
//!
//! A seat that comes back for its client's next session keeps the receipts that are younger than
//! the base, and its last one. What was kept for its client at the last snapshot says which are
//! older. A snapshot moves the base, and then no receipt is younger: those that came back since the
//! one before keep only their last receipt.

ghost use Rattle.std.specs.Prelude.{◌≡◌, IfOk, OnOk};
ghost use Rattle.std.specs.FinMap as map;
ghost use Rattle.linda_shared_accounts.specs.Accounts.{AreShortened};
ghost use Rattle.linda_shared_accounts.specs.Recall.{AreKept};
ghost use Rattle.linda_shared_held.specs.Recall.{floor_of, floors_of, IsTaken, Remembers};
ghost use Rattle.linda_shared_held.specs.Parked.{ComesToPark};

use linda_bag::IndexBag;
use linda_shared_accounts::{Account, Accounts};
use linda_shared_outbox::Outboxes;
use linda_store_state::State;
use std::alloc::{AllocError, Global};
use std::collections::{BTreeMap, BTreeSet};
use std::sync::ledger::Ledger;

/// For clients whose seat was out at the last snapshot the number that was kept for them then; and
/// the clients whose seat came back since, with more than one receipt.
#[derive(Drop)]
pub(super) struct Recall {
    floors: BTreeMap<u32, u64>,
    long: BTreeSet<u32>,
}

impl Recall {
    /// Nothing is remembered.
    pub(super) fn new(alloc: Global) -> Recall
        ensures { floors_of result ≡ map.empty }
    {
        Recall {
            floors: BTreeMap::new(alloc),
            long: BTreeSet::new(alloc),
        }
    }

    // The number that was kept for the client at the last snapshot, if its seat was out then and
    // did not come back since, else 0. It is remembered no more.
    fn take_floor(&mut self, client: u32) -> u64
        ensures floor { result ≡ floor_of self.old client }
        ensures taken { IsTaken self.old client self.new }
    {
        match self.floors.remove(&client) {
            Some(number) => number,
            None => 0,
        }
    }

    // The client's seat comes back with so many receipts. If there is no memory to remember it, its
    // ring is cut when it comes back the next time.
    fn note(&mut self, client: u32, receipts: usize)
        ensures { floors_of self.new ≡ floors_of self.old }
    {
        if receipts > 1 {
            let _ = self.long.insert(client);
        }
    }
}

/// The account comes back to its place, for its client's next session. Its receipts from before the
/// base are dropped, but never its last one. As many deeds were reported in all as before.
pub(super) fn put_back<L: Ledger>(
    accounts: &mut Accounts<L>,
    recall: &mut Recall,
    account: Account<L>,
)
    ensures back { ComesToPark recall.old accounts.old account accounts.new }
    ensures taken { IsTaken recall.old account.client recall.new }
    ensures total { accounts.new.total ≡ accounts.old.total }
{
    let mut account = account;
    let client = account.client();
    account.forget(recall.take_floor(client));
    recall.note(client, account.receipts());
    accounts.park(account, false);
}

/// The base is this state now: no receipt is younger. If there is no memory for the numbers that
/// are kept, seats that are out come back with what they have.
pub(super) fn begin_anew<L: Ledger>(
    accounts: &mut Accounts<L>,
    recall: &mut Recall,
    boxes: &Outboxes,
    alloc: Global,
    state: &State<IndexBag>,
)
    ensures total { accounts.new.total ≡ accounts.old.total }
    ensures shortened { AreShortened accounts.old.places accounts.new.places }
    ensures remembers { Remembers state.now recall.new }
{
    recall.floors = numbers_kept(boxes, alloc, state);
    shorten_all(accounts, &mut recall.long);
}

// For clients whose seat is out, which have an outbox, the numbers that are kept for them; for none
// if there is no memory. Takes no walk over other clients.
fn numbers_kept(boxes: &Outboxes, alloc: Global, state: &State<IndexBag>) -> BTreeMap<u32, u64>
    ensures { AreKept state.now result }
{
    match numbers_out(boxes, alloc, state) {
        Ok(numbers) => numbers,
        Err(_) => BTreeMap::new(alloc),
    }
}

// For each client that has an outbox the number that is kept for it.
fn numbers_out(
    boxes: &Outboxes,
    alloc: Global,
    state: &State<IndexBag>,
) -> Result<BTreeMap<u32, u64>, AllocError>
    ensures { IfOk result (AreKept state.now) }
{
    let mut numbers = BTreeMap::new(alloc);
    let mut last = None;
    for _ in 0..u32::MAX {
        let Some(client) = boxes.next_after(last) else {
            return Ok(numbers);
        };
        note_number(&mut numbers, state, client)?;
        last = Some(client);
    }
    Ok(numbers)
}

// Notes the number that is kept for the client.
fn note_number(
    numbers: &mut BTreeMap<u32, u64>,
    state: &State<IndexBag>,
    client: u32,
) -> Result<(), AllocError>
    ensures { OnOk result (AreKept state.now numbers.old → AreKept state.now numbers.new) }
{
    numbers.insert(client, state.book.last(client))?;
    Ok(())
}

// The rings of these clients keep only their last receipts.
fn shorten_all<L: Ledger>(accounts: &mut Accounts<L>, clients: &mut BTreeSet<u32>)
    ensures total { accounts.new.total ≡ accounts.old.total }
    ensures shortened { AreShortened accounts.old.places accounts.new.places }
{
    while let Some(client) = clients.pop_first() {
        accounts.shorten(client);
    }
}
