//! The durable server.
#![tactic(auto)]

mod clearing;
mod commit;
mod copying;
mod disks;
mod durable;
mod empty;
mod fault;
mod laws;
mod limits;
mod next;
mod preallocation;
mod progress;
mod renewal;
mod reserving;
mod serving;
mod stepping;
mod thread_safety;

pub use disks::InUse;
pub use durable::Durable;
pub use fault::{OpenFault, ServeFault};
pub use laws::servers_keep_their_word;
pub use limits::{MAX_LIMIT, MIN_LIMIT, SNAPSHOT_RECORDS};
pub use linda_store_step::{Served, StepCounts};
pub use progress::Progress;
