//! Status of a server over HTTP: its numbers, in three forms, and what it keeps.
//!
//! `Pages` are what a `StatusPages` of linda_net_watch answers with: a page for people, `/metrics`
//! for Prometheus, `/status.json`, and lists of tuples, clients, tags, and of what waits and is
//! held for longest. `About` is what stays the same of a server while it serves.
#![tactic(auto)]

mod about;
mod absent;
mod json;
mod kinds;
mod list_range;
mod listed;
mod lists;
mod longest;
mod metric;
mod metric_row;
mod metrics;
mod page;
mod pages;
mod pause;
mod seconds;
mod tagged;
mod tags;

pub use about::About;
pub use metric::connected;
pub use pages::Pages;
