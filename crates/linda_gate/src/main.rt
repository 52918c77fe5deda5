//! A gate before a server, for clients of other hosts: HAProxy demands a certificate of each, and
//! the gate lets through what is of the client numbers that the certificate has for a name.
//!
//! `linda_gate --listen PATH --server PATH [--mode MODE]` listens on a unix socket, and connects to
//! the server's for each connection. A connection begins with the head that HAProxy sends; what may
//! pass after it is proved (`linda_gate_pass`). Replies are passed as they are.
//!
//! It prints `ready PATH`, and on standard error why it ended a connection: `refused: not allowed`,
//! `no message` or `out of memory`. The exit status is 2 for a wrong command line, and 3 if the
//! system refuses what it needs, with a line on standard error.
#![tactic(auto)]

mod carry;
mod plan;
mod serving;
mod socket;

use plan::{Plan, plan_of};
use serving::serve;
use socket::listen_at;
use std::fmt::Display;
use std::io::{Eprint, Write};
use std::net::{Net, TcpListener, TcpStream};
use std::process::ExitCode;
use std::sync::Wait;
use std::thread::Threads;
use std::time::Clock;
use std::{env, io};

/// The exit status for a wrong command line.
const USAGE: u8 = 2;

/// The exit status if the system refuses what is needed.
const REFUSED: u8 = 3;

fn main(rt: HostRuntime) -> ExitCode {
    let Ok(words) = words(&rt) else {
        return end(&rt, "error: an argument cannot be read", USAGE);
    };
    match plan_of(&words) {
        Some(plan) => run(&rt, &rt, &plan),
        None => end(
            &rt,
            "usage: linda_gate --listen PATH --server PATH [--mode MODE]",
            USAGE,
        ),
    }
}

// The words of the command line.
fn words(rt: &HostRuntime) -> io::Result<Vec<String>> {
    let words = env::args(rt)?.collect(rt.alloc())?;
    Ok(words)
}

// Listens, and serves who connects.
fn run<S: Net<Listener = TcpListener, Stream = TcpStream> + Threads + Wait + Clock + Eprint + Sync>(
    rt: &HostRuntime,
    threads: &S,
    plan: &Plan<'_>,
) -> ExitCode {
    let Ok(listener) = listen_at(rt, rt.alloc(), plan.listen, plan.mode) else {
        return end(rt, "io", REFUSED);
    };
    let Ok(line) = format!(in rt.alloc(); "ready {}\n", plan.listen) else {
        return end(rt, "memory", REFUSED);
    };
    if rt.stdout().write_all(line.as_bytes()).is_err() {
        return end(rt, "io", REFUSED);
    }
    serve(threads, rt.alloc(), &listener, plan.server);
    end(rt, "io", REFUSED)
}

// Ends with a line on standard error.
fn end<D: Display + Drop>(rt: &HostRuntime, line: D, status: u8) -> ExitCode {
    let _ = rt.eprintln(line);
    ExitCode::from(status)
}
