//! Events: what a client waits for, as trees whose leaves are bases.
//!
//! A base is an input, a read, an alarm, a value that is always ready, or nothing at all. Above the
//! bases are choices among members, labels and nack numbers. `check` keeps an event within its
//! limits; `bases` lists its leaves in tree order, which numbers them from 0, and `has_ready_base`
//! says whether one of them is ready without a server. Once a client commits to a base, `labels_of`
//! gives the labels above it, and `nacks_of` the nack numbers that are raised.
//!
//! Contracts see an event as a `Tree` of `specs/Trees`, which knows nothing of capacities or places
//! in memory. `specs/Paths` says which nodes are above a base.
#![tactic(auto)]

mod base;
mod event;
mod limit;
mod limits;
mod path;
mod ready;

pub use base::{Base, bases};
pub use event::Event;
pub use limit::{EventFault, ask_count, base_count, check};
pub use limits::{MAX_ASKS, MAX_BASES, MAX_DEPTH};
pub use path::{all_nacks, labels_of, nacks_of};
pub use ready::has_ready_base;
