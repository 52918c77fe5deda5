//! The reading loop of a connection.
//!
//! - `pump` reads a stream to its end and hands the message of each whole frame to an `Intake`,
//!   once and in the order read, however the bytes are cut into pieces: all messages that are whole
//!   at a time go together, 64 at most.
//! - A list in memory is an `Intake` that keeps what it takes.
#![tactic(auto)]

mod intake;
mod pumping;

pub use intake::Intake;
pub use pumping::pump;
