//! Threads beside connections: one reports what happens, one takes snapshots, one answers over
//! HTTP.
//!
//! - `watch` reports to a `Watcher` what happened, each trouble when it begins (`AlertState`).
//! - `take_snapshots` takes a snapshot when one pays for itself, in steps, and has room written
//!   ahead of the bank in use.
//! - A `StatusServer` answers what is asked of a `Status`, by the pages of its `StatusPages`.
#![tactic(auto)]

mod alert_state;
mod alerts;
mod looking;
mod preallocation;
mod seconds;
mod snapshots;
mod status;
mod watcher;

pub use looking::take_snapshots;
pub use seconds::Seconds;
pub use status::{Listener, PageQuery, PageStatus, Status, StatusPages, StatusServer};
pub use watcher::{Watcher, tell, watch};
