//! A client whose lines are on standard input, from its first line to the exit status.

ghost use Rattle.std.specs.Prelude.{◌≡◌, ◌⊎◌};
ghost use Rattle.std.specs.Process.{exit_status};
ghost use Rattle.linda.specs.Statuses.{status_after_call};

use crate::end;
use crate::explaining::{explain_line, is_wanted, tell_port, tell_refusal, tell_socket};
use linda_args::{Paths, Ports};
use linda_call::{CallFault, Manner, call_at_in_manner, call_in_manner};
use linda_explain::{LineSource, RecentLinesReader};
use linda_shell::LineFault;
use std::io::Read;
use std::net::{Net, TcpListener, TcpStream};
use std::process::ExitCode;
use std::sync::Wait;
use std::thread::Threads;
use std::time::Clock;

/// Plays the lines on standard input as a client, over the servers that listen on these ports, in
/// this manner.
pub(crate) fn run_call<
    S: Net<Listener = TcpListener, Stream = TcpStream> + Threads + Wait + Clock + Sync,
>(
    rt: &HostRuntime,
    threads: &S,
    client: u32,
    ports: &Ports,
    manner: Manner,
    explain: bool,
) -> ExitCode
    ensures { (exit_status result ≡ 0) ⊎ ((exit_status result ≡ 3) ⊎ (exit_status result ≡ 4)) }
{
    let mut stdin = rt.stdin();
    let mut lines = RecentLinesReader::new(rt.alloc(), &mut stdin);
    let ended = call_in_manner(
        threads,
        rt.alloc(),
        &mut lines,
        &mut rt.stdout(),
        client,
        ports.as_slice(),
        manner,
    );
    let code = end_of_call(rt, ended);
    if is_wanted(rt, explain) {
        explain_call(rt, ended, &lines);
        match ended {
            Err(CallFault::NoConnection(server)) => {
                if let Some(port) = ports.as_slice().get(server as usize) {
                    tell_port(rt, threads, *port);
                }
            }
            Err(CallFault::Refused(server, code, _)) => {
                if let Some(port) = ports.as_slice().get(server as usize) {
                    tell_refusal(rt, *port, code);
                }
            }
            _ => {}
        }
    }
    code
}

// Says where a line of a client is no command, if that ended the call.
fn explain_call<R: Read>(
    rt: &HostRuntime,
    ended: Result<(), CallFault>,
    lines: &RecentLinesReader<'_, R>,
) {
    if let Err(CallFault::Line(number, LineFault::NotACommand)) = ended {
        explain_line(rt, lines, number, LineSource::OfCall);
    }
}

/// Plays the lines on standard input as `run_call` does, over the servers at these unix sockets.
pub(crate) fn run_call_at<
    S: Net<Listener = TcpListener, Stream = TcpStream> + Threads + Wait + Clock + Sync,
>(
    rt: &HostRuntime,
    threads: &S,
    client: u32,
    paths: &Paths,
    manner: Manner,
    explain: bool,
) -> ExitCode
    ensures { (exit_status result ≡ 0) ⊎ ((exit_status result ≡ 3) ⊎ (exit_status result ≡ 4)) }
{
    let mut stdin = rt.stdin();
    let mut lines = RecentLinesReader::new(rt.alloc(), &mut stdin);
    let ended = call_at_in_manner(
        threads,
        rt.alloc(),
        &mut lines,
        &mut rt.stdout(),
        client,
        paths.as_slice(),
        manner,
    );
    let code = end_of_call(rt, ended);
    if is_wanted(rt, explain) {
        explain_call(rt, ended, &lines);
        match ended {
            Err(CallFault::NoConnection(server)) => {
                if let Some(path) = paths.as_slice().get(server as usize) {
                    tell_socket(rt, threads, path.as_str());
                }
            }
            Err(CallFault::Refused(server, code, _)) => {
                if let Some(path) = paths.as_slice().get(server as usize) {
                    tell_refusal(rt, path.as_str(), code);
                }
            }
            _ => {}
        }
    }
    code
}

// Ends as the call ended: well, or with its fault's line on standard error.
fn end_of_call(rt: &HostRuntime, ended: Result<(), CallFault>) -> ExitCode
    ensures status { exit_status result ≡ status_after_call ended }
    ensures range { (exit_status result ≡ 0)
        ⊎ ((exit_status result ≡ 3) ⊎ (exit_status result ≡ 4)) }
{
    match ended {
        Ok(()) => ExitCode::SUCCESS,
        Err(cause) => end(rt, cause, cause.status()),
    }
}
