//! Inboxes of loops, for what they hand to each other, and how a loop shares its time.
//!
//! - A `LoopInbox` is what others hand to a loop: connections that came, and replies to its
//!   clients. `LoopDirectory` has them all, which loop serves which client, and what is counted.
//! - An `Acceptor` lets connections in, each to a loop.
//! - A `Share` says how much is taken in one turn.
//! - `Time` is that of a loop. A `Span` says for how long something is so at a connection: that its
//!   client holds a tuple and says nothing, or that it is over and takes nothing.
#![tactic(auto)]

mod acceptor;
mod limits;
mod listeners;
mod loop_directory;
mod loop_inbox;
mod share;
mod span;
mod time;

pub use acceptor::{ACCEPTOR, Acceptor};
pub use limits::Limits;
pub use listeners::ListeningSockets;
pub use loop_directory::LoopDirectory;
pub use loop_inbox::{InboxFlags, LoopInbox};
pub use share::{Share, is_much, weight_after};
pub use span::{Look, Span};
pub use time::Time;
