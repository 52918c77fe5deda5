//! Pages over HTTP, for those who ask how a server does.
//!
//! - `PageSource` has the pages, which it spells when they are asked for.
//! - An `HttpServer` has a listener and some connections, each of which asks once and is answered
//!   (`HttpConnection`). It waits for none of them.
//! - What a connection sent and what it is answered are an `HttpExchange`, which makes no call:
//!   what is asked for is read by `parse_head`, the answer is written by `write_response`, and
//!   what goes before a page is a `Response`.
//! - A listener is a port of this machine or a unix socket (`Listener`), and so is the socket of a
//!   connection (`Stream`), for which nobody waits.
//! - A page is asked for under a name of this machine, or under none (`is_for_us`).
#![tactic(auto)]

mod connection;
mod head;
mod host;
mod http_exchange;
mod listener;
mod pages;
mod reply;
mod response;
mod server;
mod stream;
mod target;
mod unsent_bytes;

pub use listener::Listener;
pub use pages::{PageQuery, PageSource, PageStatus};
pub use server::HttpServer;
pub use stream::Stream;
