//! Core of a server that sessions share: all that is under its lock.
//!
//! `Held` is a durable server with the outboxes of its clients, the receipts of its deeds since the
//! last snapshot, and the accounts, which count what was reported to each session. Its calls wait
//! for nobody: the thread that has the lock makes them. `Held::is_down` says what is always so: the
//! receipts lead from the base to the state, what waits in an outbox is kept, and as many deeds
//! were reported as were done.
#![tactic(auto)]

mod admission;
mod gauge;
mod held;
mod limits;
mod room;
mod snapshot_policy;
mod thread_safety;

pub use admission::Admission;
pub use gauge::Gauge;
pub use held::{Held, Report};
pub use limits::{MANY_RECEIPTS, SNAPSHOT_BYTES};
pub use linda_server::{Durable, Progress};
