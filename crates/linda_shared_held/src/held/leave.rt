//! A session ends: what its client asked is given up, and its seat is parked.

ghost use Rattle.std.specs.Prelude.{◌≡◌};
ghost use Rattle.linda_shared_held.specs.Closing.{Closes, ClosesAndPosts, Departs};
ghost use Rattle.linda_shared_held.specs.Recall.{IsTaken};
ghost use Rattle.linda_shared_held.specs.Parked.{ComesToPark, IsBack};

use super::Held;
use super::recall::{Recall, put_back};
use linda_disk::Disk;
use linda_server::Durable;
use linda_shared_accounts::{Account, Accounts, SharedFault};
use linda_shared_outbox::Outboxes;
use linda_store::NodeFault;
use linda_wire::Reply;
use std::alloc::Global;
use std::sync::ledger::Ledger;

impl<D: Disk, L: Ledger> Held<D, L> {
    /// Gives up all that the client asked. No disk is touched.
    ///
    /// # Errors
    ///
    /// `Down` exactly if the server is down: one that was down is as before.
    pub fn close(&mut self, alloc: Global, client: u32) -> Result<(), SharedFault>
        ensures closes { ClosesAndPosts self.old.server self.old.boxes client result
            self.new.server self.new.boxes }
        ensures same { (self.new.opening.value ≡ self.old.opening.value)
            × (self.new.base.value ≡ self.old.base.value)
            × (self.new.receipts.items ≡ self.old.receipts.items)
            × (self.new.count ≡ self.old.count)
            × (self.new.accounts ≡ self.old.accounts) × (self.new.policy ≡ self.old.policy)
            × (self.new.recall ≡ self.old.recall) }
    {
        close_and_post(&mut self.server, &mut self.boxes, alloc, client)
    }

    /// The client's seat comes back, for its next session: with the receipts that are younger than
    /// the base, and its last one.
    pub fn park(&mut self, account: Account<L>)
        ensures back { ComesToPark self.old.recall self.old.accounts account self.new.accounts }
        ensures taken { IsTaken self.old.recall account.client self.new.recall }
        ensures same { (self.new.opening.value ≡ self.old.opening.value)
            × (self.new.base.value ≡ self.old.base.value)
            × (self.new.receipts.items ≡ self.old.receipts.items)
            × (self.new.count ≡ self.old.count)
            × (self.new.server ≡ self.old.server) × (self.new.boxes ≡ self.old.boxes)
            × (self.new.policy ≡ self.old.policy) }
    {
        put_back(&mut self.accounts, &mut self.recall, account);
    }

    /// The client's seat comes back for good: it goes out no more. Takes no memory.
    pub fn park_for_good(&mut self, account: Account<L>)
        ensures back { IsBack self.old.accounts account self.new.accounts }
        ensures same { (self.new.opening.value ≡ self.old.opening.value)
            × (self.new.base.value ≡ self.old.base.value)
            × (self.new.receipts.items ≡ self.old.receipts.items)
            × (self.new.count ≡ self.old.count)
            × (self.new.server ≡ self.old.server) × (self.new.boxes ≡ self.old.boxes)
            × (self.new.policy ≡ self.old.policy) × (self.new.recall ≡ self.old.recall) }
    {
        put_back_for_good(&mut self.accounts, account);
    }

    /// The session of a client ends: it is closed and, even if that fails, its outbox is shut and
    /// its seat comes back. No disk is touched.
    ///
    /// # Errors
    ///
    /// `Down` exactly if the server is down: one that was down is as before.
    pub fn leave(&mut self, alloc: Global, account: Account<L>) -> Result<(), SharedFault>
        ensures departs { Departs self.old.server self.old.boxes account.client result
            self.new.server self.new.boxes }
        // In every case its seat is back.
        ensures back { ComesToPark self.old.recall self.old.accounts account self.new.accounts }
        ensures taken { IsTaken self.old.recall account.client self.new.recall }
        ensures same { (self.new.opening.value ≡ self.old.opening.value)
            × (self.new.base.value ≡ self.old.base.value)
            × (self.new.receipts.items ≡ self.old.receipts.items)
            × (self.new.count ≡ self.old.count)
            × (self.new.policy ≡ self.old.policy) }
    {
        depart(
            &mut self.server,
            &mut self.boxes,
            &mut self.accounts,
            &mut self.recall,
            alloc,
            account,
        )
    }
}

// Closes the account's client, shuts its outbox, and puts the account back.
fn depart<D: Disk, L: Ledger>(
    server: &mut Durable<D>,
    boxes: &mut Outboxes,
    accounts: &mut Accounts<L>,
    recall: &mut Recall,
    alloc: Global,
    account: Account<L>,
) -> Result<(), SharedFault>
    ensures departs { Departs server.old boxes.old account.client result server.new boxes.new }
    ensures back { ComesToPark recall.old accounts.old account accounts.new }
    ensures taken { IsTaken recall.old account.client recall.new }
    ensures total { accounts.new.total ≡ accounts.old.total }
{
    let client = account.client();
    let answer = close_and_post(server, boxes, alloc, client);
    boxes.shut(client);
    put_back(accounts, recall, account);
    answer
}

/// The account comes back to its client's place for good. As many deeds were reported in all as
/// before.
pub(super) fn put_back_for_good<L: Ledger>(accounts: &mut Accounts<L>, account: Account<L>)
    ensures back { IsBack accounts.old account accounts.new }
    ensures total { accounts.new.total ≡ accounts.old.total }
{
    accounts.park(account, true);
}

// Closes the client and posts what is sent. What is known of the server is as before.
fn close_and_post<D: Disk>(
    server: &mut Durable<D>,
    boxes: &mut Outboxes,
    alloc: Global,
    client: u32,
) -> Result<(), SharedFault>
    ensures { ClosesAndPosts server.old boxes.old client result server.new boxes.new }
{
    let sends = close_client(server, alloc, client)?;
    let Ok(()) = boxes.make_places(&sends) else {
        server.give_up();
        return Err(SharedFault::Down);
    };
    boxes.post_all(sends);
    Ok(())
}

// Closes the client. What is known of the server is as before.
fn close_client<D: Disk>(
    server: &mut Durable<D>,
    alloc: Global,
    client: u32,
) -> Result<Vec<(u32, Reply)>, SharedFault>
    ensures { Closes server.old client result server.new }
{
    match server.close(alloc, client) {
        Ok(sends) => Ok(sends),
        Err(NodeFault::Down) => Err(SharedFault::Down),
        Err(NodeFault::Full) => unreachable!(),
    }
}
