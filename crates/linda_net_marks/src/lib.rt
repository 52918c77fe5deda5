//! Counts of what happens at connections, however they are served.
//!
//! - `Counters` has the counts, which threads share; a `CounterValues` is what they come to.
//! - A `Notice` is what is reported of them, and `RefusalReason` says why a client was refused.
//! - `word_of` is the last word to a client if the server has a fault.
//! - Only a client number that is refused Busy again and again counts (`BusyRuns`).
#![tactic(auto)]

mod bounds;
mod busy;
mod counters;
mod elapsed;
mod notice;
mod refusals;
mod word;

pub use bounds::{ACCEPT_PAUSE, one_less};
pub use counters::{CounterValues, Counters};
pub use elapsed::{micros_since, millis_since};
pub use notice::Notice;
pub use refusals::{RefusalReason, RefusalValues};
pub use word::word_of;
