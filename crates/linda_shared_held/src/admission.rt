//! Admission of a client that greets: its account, or why it has none.

use linda_shared_accounts::Account;
use std::sync::ledger::Ledger;

/// What a server says to a client that greets.
#[derive(Drop)]
pub enum Admission<L: Ledger> {
    /// The client has its account, and a last request of this number that is kept.
    Welcome(Account<L>, u64),
    /// It has none, for this code and detail.
    Refused(u8, u64),
}
