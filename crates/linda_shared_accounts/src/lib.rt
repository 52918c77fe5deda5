//! Accounts of what was reported to each session, beside what was stored.
//!
//! A session carries an `Account`: of how many deeds it heard, its last receipts, and its parts of
//! a ledger. Each message goes to the server with one part (`PendingAck`) and comes back with what
//! was reported (`Ack`), which the `Accounts` under the server's lock has written into the ledger.
//! So once all accounts are back, what was reported in all is what was reported to them; and
//! `Accounts::compare` says whether that is what was stored.
//!
//! A call that may take memory has a fault for that; no other call takes any.
#![tactic(auto)]

mod account;
mod accounts;
mod asking;
mod effect;
mod fault;
mod laws;
mod limits;
mod pending_ack;
mod place;
mod places;
mod receipt;
mod ring;
mod shared_receipt;
mod telling;
mod thread_safety;
mod tokens;

pub use account::Account;
pub use accounts::Accounts;
pub use asking::is_deed_of;
pub use effect::Effect;
pub use fault::SharedFault;
pub use laws::{
    cut_rings_are_rings, each_message_is_told_once, receipts_tell_what_was_done,
    receipts_weigh_one_each, true_receipts_go_on,
};
pub use limits::{ACCOUNT_PARTS, MOST_ASKED, PARTS, RING_SIZE};
pub use pending_ack::{Ack, PendingAck};
pub use place::Place;
pub use receipt::Receipt;
pub use ring::Ring;
pub use shared_receipt::SharedReceipt;
pub use telling::receipts_of;
pub use thread_safety::{account_crosses, accounts_cross, jobs_cross};
