//! Explanations of lines that are no commands: where each goes wrong, and what was expected there.
//!
//! - A `RecentLinesReader` is a reader that keeps the lines that it gave last, so that the one with
//!   a fault can be looked at.
//! - `explain` says where a line goes wrong. What could go on in a tuple or an event is found by
//!   their own readers (`expected`): there is no second grammar. The few parts of the commands of
//!   servers are listed (`server_command`).
#![tactic(auto)]

mod expected;
mod explanation;
mod numbers;
mod reading;
mod recent_lines_reader;
mod server_command;

pub use explanation::{LineSource, explain};
pub use recent_lines_reader::RecentLinesReader;
