//! The programs of the tuple space, with one command line.
//!
//! `linda pipe` serves one connection to a new server in memory. Each line of standard input is a
//! piece of the client's stream in hexadecimal digits; each reply is such a line on standard
//! output.
//!
//! `linda run --servers N [--trace FILE]` plays a script from standard input with N servers on
//! disks in memory, 1 to 16, and writes the trace of the run to a file, which is made, or emptied
//! if it is there.
//!
//! `linda call --client C [--again] [--together] PORT..` plays lines from standard input as client
//! C, over the servers that listen on these ports of this machine; with `--again` it goes on as a
//! client that was used before, with `--together` lines that put tuples do not wait for one
//! another. `--socket PATH`, once for each server, names unix sockets in place of ports.
//!
//! `linda serve --port P --dir D [--sessions K] [--log] [--lease S] [--socket PATH [--mode MODE]]
//! [--status Q [--metric TAG]..] [--wait]` serves the store in a folder to clients that connect to
//! a port of this machine; with `--log` it writes what it does to standard error, with `--lease S`
//! it ends connections of clients that hold a tuple and send nothing for S seconds, with `--status
//! Q` it says on another port, or at a unix socket, over HTTP, how it does, and with `--metric TAG`
//! how many tuples of this tag there are, with `--socket PATH` it listens on a unix socket too, or
//! without `--port` only there, and with `--wait` it waits while another server has the folder
//! open.
//!
//! `linda inspect DIR [--tuples] [--clients] [--json]` says what the store in a folder holds, and
//! whether it would be served.
//!
//! `linda --version`, `-V` or `version` prints the version of the program, and the forms of banks
//! and frames.
//!
//! A standard stream that is closed is filled before anything is opened, so that no file and no
//! socket gets its number.
//!
//! The exit status is 0 at the end; 2 for a fault of the command line, with the parser's text on
//! standard error; 3 with one line there, `io` or `memory`, if standard input or output fails or
//! memory runs out, or `server S: no connection`, `server S: not a server`, `server S: refused CODE
//! DETAIL`, `server S: restored`, `server S: number in use`, or what is said of a store; 4 with one
//! line there for a fault of a line of the input.
#![tactic(auto)]

ghost use Rattle.std.specs.Prelude.{◌≡◌, ◌≢◌, ◌⊎◌};
ghost use Rattle.std.specs.Process.{exit_status};
ghost use Rattle.clap.specs.Words.{kind_of};
ghost use Rattle.linda_args.specs.Commands.{HasServers};
ghost use Rattle.linda.specs.Statuses.{status_after};
ghost use Rattle.clap.specs.declared.error.kind.ErrorKind.TheVariants as kinds;

mod call;
mod explaining;
mod refusals;
mod script;
mod status;
mod store;
mod streams;

use call::{run_call, run_call_at};
use linda_args::{Task, VERSION_LINES, asks_for_version, read_task};
use linda_call::Manner;
use linda_pipe::{PipeFault, REFUSED, pipe};
use script::{run_servers, run_traced};
use std::fmt::Display;
use std::io::{ErrorKind, Write};
use std::net::{Net, TcpListener, TcpStream};
use std::process::ExitCode;
use std::random::RandomSource;
use std::sync::Wait;
use std::thread::Threads;
use std::time::Clock;
use std::{env, io};
use store::{run_inspect, run_serve};
use streams::Streams;

// The exit status for a fault of the command line.
const USAGE: u8 = 2;

fn main(rt: HostRuntime) -> ExitCode {
    let Ok(streams) = Streams::fill(&rt) else {
        return end(&rt, "io", REFUSED);
    };
    match words(&rt) {
        Ok(words) => answer(&rt, &rt, &streams, &words),
        Err(error) => refuse(&rt, &error),
    }
}

// Does what the words of the command line ask for.
fn answer<
    S: Net<Listener = TcpListener, Stream = TcpStream>
        + Threads
        + Wait
        + Clock
        + RandomSource
        + Sync,
>(rt: &HostRuntime, threads: &S, streams: &Streams, words: &[String]) -> ExitCode {
    if asks_for_version(words) {
        return tell_version(rt);
    }
    match read_task(rt.alloc(), words) {
        Ok(task) => perform(rt, threads, streams, &task),
        Err(error) => show(rt, &error),
    }
}

// Does this task.
fn perform<
    S: Net<Listener = TcpListener, Stream = TcpStream>
        + Threads
        + Wait
        + Clock
        + RandomSource
        + Sync,
>(rt: &HostRuntime, threads: &S, streams: &Streams, task: &Task) -> ExitCode
    requires { HasServers task.now }
{
    if !streams.has_output() && has_effects(task) {
        return end(rt, "io", REFUSED);
    }
    match task {
        Task::Pipe => run_pipe(rt),
        Task::Run { servers, explain } => run_servers(rt, *servers, *explain),
        Task::TracedRun {
            servers,
            file,
            explain,
        } => run_traced(rt, *servers, file, *explain),
        Task::Call {
            client,
            ports,
            again,
            together,
            explain,
        } => {
            let manner = manner_of(*again, *together);
            run_call(rt, threads, *client, ports, manner, *explain)
        }
        Task::CallAt {
            client,
            paths,
            again,
            together,
            explain,
        } => {
            let manner = manner_of(*again, *together);
            run_call_at(rt, threads, *client, paths, manner, *explain)
        }
        Task::Serve { plan, log, explain } => run_serve(rt, threads, plan, *log, *explain),
        Task::Inspect {
            dir,
            lists,
            json,
            explain,
        } => run_inspect(rt, dir, *lists, *json, *explain),
    }
}

// In which way a call does its lines.
fn manner_of(goes_on: bool, together: bool) -> Manner
    ensures goes_on { result.goes_on ≡ goes_on }
    ensures together { result.together ≡ together }
{
    Manner { goes_on, together }
}

// Whether the task changes files, or what a server keeps. If what it prints cannot be printed, it
// ends before it touches them, and before it greets a server.
fn has_effects(task: &Task) -> bool {
    match task {
        Task::TracedRun { .. } => true,
        Task::Call { .. } => true,
        Task::CallAt { .. } => true,
        Task::Serve { .. } => true,
        _ => false,
    }
}

// Ends if the words of the command line could not be read.
fn refuse(rt: &HostRuntime, error: &io::Error) -> ExitCode {
    if error.kind() == ErrorKind::OutOfMemory {
        return end(rt, "memory", REFUSED);
    }
    end(rt, "error: an argument is not UTF-8", USAGE)
}

// The words of the command line.
fn words(rt: &HostRuntime) -> io::Result<Vec<String>> {
    let words = env::args(rt)?.collect(rt.alloc())?;
    Ok(words)
}

// Serves standard input and output.
fn run_pipe(rt: &HostRuntime) -> ExitCode
    ensures { (exit_status result ≡ 0) ⊎ ((exit_status result ≡ 3) ⊎ (exit_status result ≡ 4)) }
{
    end_of_pipe(rt, pipe(rt.alloc(), &mut rt.stdin(), &mut rt.stdout()))
}

// Ends as the pipe ended: well, or with its fault's line on standard error.
fn end_of_pipe(rt: &HostRuntime, ended: Result<(), PipeFault>) -> ExitCode
    ensures status { exit_status result ≡ status_after ended }
    ensures range { (exit_status result ≡ 0)
        ⊎ ((exit_status result ≡ 3) ⊎ (exit_status result ≡ 4)) }
{
    match ended {
        Ok(()) => ExitCode::SUCCESS,
        Err(fault) => end(rt, fault, fault.status()),
    }
}

// Prints the version.
fn tell_version(rt: &HostRuntime) -> ExitCode
    ensures { (exit_status result ≡ 0) ⊎ (exit_status result ≡ 3) }
{
    if rt.stdout().write_all(VERSION_LINES.as_bytes()).is_err() {
        return end(rt, "io", REFUSED);
    }
    ExitCode::SUCCESS
}

// Shows the text of the parser of the command line.
fn show(rt: &HostRuntime, error: &clap::Error) -> ExitCode
    ensures memory { kind_of error.now ≡ kinds.OutOfMemory → exit_status result ≡ 3 }
    ensures mistake { kind_of error.now ≢ kinds.OutOfMemory → kind_of error.now ≢ kinds.DisplayHelp
        → kind_of error.now ≢ kinds.DisplayVersion → exit_status result ≡ 2 }
    ensures help { (kind_of error.now ≡ kinds.DisplayHelp)
        ⊎ (kind_of error.now ≡ kinds.DisplayVersion)
        → (exit_status result ≡ 0) ⊎ (exit_status result ≡ 3) }
{
    if error.kind() == clap::error::ErrorKind::OutOfMemory {
        return end(rt, "memory", REFUSED);
    }
    let printed = error.print(rt);
    if error.use_stderr() {
        return ExitCode::from(USAGE);
    }
    if printed.is_err() {
        return end(rt, "io", REFUSED);
    }
    ExitCode::SUCCESS
}

// Ends with a line on standard error.
fn end<D: Display + Drop>(rt: &HostRuntime, line: D, status: u8) -> ExitCode
    ensures { exit_status result ≡ status }
{
    let _ = rt.eprintln(line);
    ExitCode::from(status)
}
