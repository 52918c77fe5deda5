//! Waits and holds, which a server keeps for its clients beside their replies: who waits for a
//! tuple, and which tuples are held for whom.
//!
//! A `Request` is named by its client and its ticket. `Waits` has the requests that no tuple has
//! answered yet, in order of arrival, and `Holds` says which tuples were offered to a request and
//! not yet accepted. Neither is kept on disk. Contracts see the waits as the list in order of
//! arrival, and the holds as a finite map from ids to requests; the words for both are in
//! `specs/Waits` and `specs/Holds`.
//!
//! A call that may take memory has a fault for that; no other call takes any.
#![tactic(auto)]

mod ages;
mod asked;
mod awaiting;
mod first_value_index;
mod group;
mod holds;
mod index;
mod keys;
mod long;
mod numbers;
mod request;
mod tag_index;
mod ticket_index;
mod wait_candidates;
mod waits;

pub use asked::Asked;
pub use awaiting::Awaiting;
pub use holds::Holds;
pub use long::{LongHold, LongWait};
pub use request::Request;
pub use waits::Waits;
