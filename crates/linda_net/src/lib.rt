//! Ways to serve a server that threads share: the front door of all that is between it and sockets.
//!
//! - `serve_loop` serves all connections from a few loops (linda_net_loops), reports to a `Watcher`
//!   what happens, and answers what is asked over HTTP by the pages of a `StatusPages`
//!   (linda_net_watch); `linda serve` uses it.
//! - `serve` gives each connection of a listener two threads: one reads it by `pump` and submits,
//!   one drains its client's outlet and writes. It is for programs of their own.
//! - The reading loop of linda_net_pump, and a client's connections of linda_net_proxy, are named
//!   here too.
#![tactic(auto)]

mod accepting;
mod connection;
mod reading;
mod serving;
mod writing;

pub use linda_net_marks::{CounterValues, Notice, RefusalReason, RefusalValues};
pub use linda_net_proxy::{
    EventInbox, FIRST_TRIES, MAX_TRIES, Proxy, ProxyFault, ServerEvent, ServerLink, end, send,
};
pub use linda_net_pump::{Intake, pump};
pub use linda_net_relays::{Limits, ListeningSockets};
pub use linda_net_watch::{Listener, PageQuery, PageStatus, Status, StatusPages, Watcher};
pub use linda_shared::{
    ClientPage, Gauge, KindPage, ListedClient, ListedKind, ListedReply, ListedTuple,
    LongestWaitsAndHolds, MOST_KINDS, Shared, SharedFault, TakenCount, TuplePage, TupleQuery,
};
pub use serving::{serve, serve_loop};
