//! The journal of a server: deeds as bytes, and back, so that any torn end is detected.
//!
//! A call that may take memory has a fault for that; no other call takes any.
#![tactic(auto)]

mod bank;
mod closed;
mod contents;
mod fault;
mod filling;
mod gate;
mod heading;
mod image;
mod journal;
mod kinds;
mod limits;
mod making;
mod payload;
mod record;
mod size;
mod whole;

pub use bank::{Bank, unlock};
pub use closed::{Closed, shut};
pub use fault::BankFault;
pub use filling::Filling;
pub use gate::lay_gate;
pub use heading::{Heading, read_heading};
pub use journal::{Journal, JournalFault, read_journal};
pub use kinds::CLOSED;
pub use limits::{GATE_BYTES, LENGTH_PLACE, MAX_DEEDS, MAX_RECORDS, MIN_BYTES, PIECE, RECORD_HEAD};
pub use making::{push_heading, spell_front, spell_heading};
pub use record::{Record, spell_deeds};
pub use size::records_for;
pub use whole::{Whole, write_body};
