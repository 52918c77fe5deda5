//! Simulator: a server with its connections, disks, clock and clients, or clients over several
//! servers, in one thread of one process, all by a seed. Each line of standard input says a run,
//! one of clients after the word `clients`; what came of it is a line of standard output. A run
//! that differs from what has to be prints how, and the exit status is 1.
#![tactic(auto)]

mod clients;
mod servers;

use crate::clients::run::Clients;
use crate::servers::run::Servers;
use linda_test_runs::{Tally, play_line};
use std::alloc::Global;
use std::io;
use std::io::Input;
use std::net::Net;
use std::process::ExitCode;
use std::sync::Wait;

/// The exit status if a run differs, or could not be played.
const DIFFERS: u8 = 1;

// Plays all lines.
fn play_all<R: Input + Print + AllocGlobal + Wait + Net>(rt: &R) -> io::Result<bool> {
    let lines = io::read_to_string(rt.alloc(), rt.reader())?;
    play_lines(rt, rt.alloc(), &mut Servers::new(rt), lines.as_str())
}

fn play_lines<R: Print + Wait + Net>(
    rt: &R,
    alloc: Global,
    servers: &mut Servers<'_, R>,
    lines: &str,
) -> io::Result<bool> {
    let mut clients = Clients::new();
    let mut of_servers = Tally::new();
    let mut of_clients = Tally::new();
    let mut is_so = true;
    for line in lines.lines() {
        let is_this = match line.strip_prefix("clients ") {
            Some(line) => play_line(rt, alloc, &mut clients, &mut of_clients, line)?,
            None => play_line(rt, alloc, servers, &mut of_servers, line)?,
        };
        is_so = is_this && is_so;
    }
    Ok(is_so)
}

fn main(rt: HostRuntime) -> ExitCode {
    match play_all(&rt) {
        Ok(true) => ExitCode::SUCCESS,
        _ => ExitCode::from(DIFFERS),
    }
}
