//! `linda call`: a client of servers that listen on ports of this machine, or on unix sockets.
//!
//! `call` plays lines, `out TUPLE`, `sync EVENT`, `leave` and `last`, one at a time, over a link to
//! each port, as a client of as many servers; it writes the outcome of each before it looks at the
//! next. `call_at` does so over the unix sockets at given paths. If one of them ends otherwise a
//! `CallFault` says why. What the client does is what linda_client promises of it; what is printed
//! is shown by tests.
#![tactic(auto)]

mod calling;

pub use calling::{CallFault, Manner, call, call_at, call_at_in_manner, call_in_manner};
