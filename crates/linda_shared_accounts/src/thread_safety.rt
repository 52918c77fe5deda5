//! Send of what sessions carry, and of what is under the lock.

use crate::account::Account;
use crate::accounts::Accounts;
use crate::pending_ack::{Ack, PendingAck};
use std::sync::ledger::Ledger;

fn wants<T: Send>(_x: &T) {}

/// An account may cross threads.
pub fn account_crosses<L: Ledger + Send + Sync>(account: &Account<L>) {
    wants(account);
}

/// The accounts may cross threads.
pub fn accounts_cross<L: Ledger + Send + Sync>(accounts: &Accounts<L>) {
    wants(accounts);
}

/// A message on its way there, and its answer on its way back, may cross threads.
pub fn jobs_cross<A: Send + Drop, L: Ledger + Send + Sync>(
    asked: &PendingAck<A, L>,
    answered: &Ack<A, L>,
) {
    wants(asked);
    wants(answered);
}
