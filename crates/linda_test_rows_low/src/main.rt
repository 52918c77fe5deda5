//! Rows of values, of what a server is made of, of disks and what is on them, and of clients, by
//! public calls only.
//!
//! The rows are in the file `stdin` beside `src`. `linda_test_script` says how a row is written,
//! and plays it; the heads of the modules say what each line does, and `players` which module does
//! it.
#![tactic(auto)]

mod batches;
mod clients;
mod disks;
mod players;
mod servers;
mod values;

use crate::players::Players;
use linda_test_script::{Sweeps, run_rows};
use std::process::ExitCode;

fn main(rt: HostRuntime) -> ExitCode {
    let alloc = rt.alloc();
    run_rows(&rt, &mut Sweeps::new(alloc, Players::new(alloc)))
}
