//! Inspection of the two banks of a store, by their bytes only and without a write: which one is in
//! use and why, its form, how much it keeps and takes, its tuples and clients; or what is damaged,
//! and what is whole before that.
//!
//! `write_report` writes lines, and `write_json` one JSON object; `push_json_..` is for others that
//! write values as it does. Each ends well exactly if a server would open such banks, unless memory
//! runs out or the output fails: if they have a state, or both are empty. Else it returns the fault
//! that the server would return.
#![tactic(auto)]

mod fault;
mod json;
mod lists;
mod output;
mod report;
mod side;
mod whole;

pub use fault::{InspectFault, OutputFault};
pub use json::{push_json_atom, push_json_member, push_json_string, push_json_tuple, write_json};
pub use lists::Lists;
pub use report::write_report;
