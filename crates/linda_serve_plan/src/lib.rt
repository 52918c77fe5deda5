//! `ServePlan`: what `linda serve` is asked to serve, where, and for how long.
//!
//! The command line is read into one (`linda_args`), and a server is run by it (`linda_serve`).
//! There is no code here.
#![tactic(auto)]

mod plan;

pub use plan::{ServePlan, SocketFile, StatusPlace};
