//! Loops, which serve the connections of listeners without a thread for each: each waits until some
//! of its connections are ready, takes what they sent to the server as one group, and writes what
//! that led to.
//!
//! - `Loops` are all of them, and run in threads of their own.
//! - A `Loop` has some of the connections (`Sessions`), and what of theirs goes to the server next
//!   (`Groups`).
//! - `Serving` is one loop without a system below: what is a `Socket` there may be anything.
//! - A `Connection` is a socket with its `Session`, read and written without waiting for it.
#![tactic(auto)]

mod connection;
mod event_loop;
mod groups;
mod loop_sink;
mod loops;
mod place;
mod service;
mod serving;
mod sessions;
mod socket;

pub use loops::Loops;
pub use place::account_has_parts_for_all;
pub use serving::Serving;
pub use socket::{ConnectionNotice, Socket};
