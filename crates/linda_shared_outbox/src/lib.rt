//! Outboxes: for each client that has one the replies that wait to be drained.
//!
//! Contracts see only what waits for each client (`waits_for` of `specs/Waiting`), and nothing at
//! all if the client has no outbox. Room for what is sent is made first; to post it takes no memory
//! then, so a server that has made its deeds durable can always say so. No call walks over all
//! clients.
//!
//! A call that may take memory has a fault for that; no other call takes any.
#![tactic(auto)]

mod keys;
mod opened;
mod outbox;
mod outboxes;
mod sent;

pub use outboxes::Outboxes;
pub use sent::Sent;
