//! Snapshots, and the two banks of a server: a state as bytes, which of two banks is in use, and
//! the switch from one to the other.
//!
//! - A snapshot is the one spelling of a state. What is put is read again, and bytes are refused
//!   only if they spell no state that is in its ranges.
//! - `choose_bank` returns the state of the two banks, or what is wrong with them, on which side
//!   and where; `choose` says which of the two that is, by what they begin with.
//! - `switch` makes a new bank of the next generation on the other disk. A crash at any moment of
//!   it leaves only what represents the same state.
#![tactic(auto)]

mod bank_writer;
mod book_copy;
mod choice;
mod clients;
mod cursor;
mod deed_log;
mod entry;
mod laws;
mod putting;
mod reading;
mod renewal;
mod replay;
mod snapshot_encoder;
mod takeover;

pub use bank_writer::{BankChunk, BankWriter};
pub use book_copy::BookCopy;
pub use choice::{ChoiceFault, Chosen, choose, choose_bank};
pub use cursor::{kept_after, next_entry, tuple_from};
pub use entry::MAX_KEPT_BYTES;
pub use laws::{an_append_leaves_the_old_state_or_the_new, two_banks_stand_for_one_state};
pub use linda_journal::{Closed, Whole, shut, unlock, write_body};
pub use putting::{EMPTY_STATE_BYTES, put_state};
pub use reading::{SnapshotFault, get_state};
pub use renewal::{SwitchFault, switch};
pub use snapshot_encoder::{STEP_TUPLES, SnapshotEncoder};
pub use takeover::take_over;
