//! One connection of a server as a machine over bytes: a `Session` makes no call.
//!
//! The bytes that come in go to `received`, and `next` gives their messages, each with the way that
//! it goes. A reply to the client goes to `tell`, which queues it, and `unsent` has the bytes that
//! are to be written. The caller moves the bytes and asks the server.
#![tactic(auto)]

mod end;
mod laws;
mod limits;
mod outgoing;
mod phase;
mod route;
mod session;

pub use end::SessionEnd;
pub use laws::{goes_out_as_told, one_story};
pub use limits::MOST_UNSENT;
pub use phase::{MOST_ASKED, Phase, Way};
pub use route::{MessageKind, OpenWays, Route, kind_of, place};
pub use session::Session;
