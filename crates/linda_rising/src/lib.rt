//! Maps from ids that are given in rising order and never again: in blocks of some hundred rows.
//! A row at the end costs no search, and any other one two, in memory that lies together.
//!
//! `RisingMap` is what the crates above use, and contracts see it as a finite map. A set of ids is
//! the map to `()`, whose rows take no memory beside their ids.
#![tactic(auto)]

mod block;
mod blocks;
mod rising_map;

pub use blocks::Run;
pub use rising_map::RisingMap;
