//! The connections of a client to its servers.
//!
//! - A `Proxy` is a connection to one server: it greets, sends messages and receives replies.
//! - A `ServerLink` keeps one up, greets again if it was lost, and brings what comes into an
//!   `EventInbox`.
//! - An `EventInbox` has what came from all servers, in order of arrival.
//!
//! Every call that waits for nobody ends. What goes over a socket no contract can say: tests over
//! sockets show it.
#![tactic(auto)]

mod course;
mod fault;
mod inbox;
mod link;
mod proxy;
mod server_events;

pub use course::{FIRST_TRIES, MAX_TRIES};
pub use fault::ProxyFault;
pub use inbox::EventInbox;
pub use link::ServerLink;
pub use proxy::{Proxy, end, send};
pub use server_events::ServerEvent;
