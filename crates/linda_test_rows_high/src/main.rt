//! Rows of scripts, their traces and whole worlds, and of what the commands of the program do:
//! texts through a pipe, a conversation and a script, over a reader and a writer that fail; words
//! of the command line; what is printed of folders; lines of a log; what passes a gate.
//!
//! The rows are in the file `stdin` beside `src`. `linda_test_script` says how a row is written,
//! and plays it; the README and `worlds` say what each line does.
#![tactic(auto)]

mod folders;
mod gates;
mod logs;
mod peers;
mod players;
mod scripts;
mod talks;
mod texts;
mod words;
mod worlds;

use crate::players::Players;
use linda_test_script::{Sweeps, run_rows};
use std::process::ExitCode;

fn main(rt: HostRuntime) -> ExitCode {
    let alloc = rt.alloc();
    run_rows(&rt, &mut Sweeps::new(alloc, Players::new(&rt, alloc)))
}
