//! `linda call`: a client of servers that listen on ports of this machine, or on unix sockets.

mod asking;
mod caller;
mod clock;
mod count;
mod fault;
mod kept;
mod manner;
mod numbers;
mod party;
mod ring;
mod standing;

ghost use Rattle.std.specs.Prelude.{◌≡◌, ◌≤◌, length, map, IfOk, vec_len};
ghost use Rattle.std.specs.String.{string_bytes};
ghost use Rattle.linda_call.specs.Links.{IsLinked, IsLinkedAt};
ghost use Rattle.linda_client.specs.declared.limits.TheConstants.{MAX_SERVERS};

use caller::Caller;
use count::Count;
pub use fault::CallFault;
use linda_net_proxy::{EventInbox, ServerLink};
use linda_pipe::{extend_line, without_return};
use linda_store::MAX_READS;
pub use manner::Manner;
use std::alloc::{AllocError, Global};
use std::io::{Read, Write};
use std::net::{Net, TcpListener, TcpStream};
use std::sync::Wait;
use std::thread;
use std::thread::Threads;
use std::time::Clock;

// The most bytes of one read.
const BUFFER: usize = 4096;

/// Plays lines as a client of this number over the servers that listen on these ports of this
/// machine, which are numbered from 0: `out TUPLE`, `sync EVENT`, `leave` and `last`, one at a
/// time. Each outcome is written and flushed before the next line is looked at; `last` writes the
/// reply that each server keeps to the client. A carriage return at a line's end is dropped; the
/// last line may lack its line feed.
///
/// The client is one that was never used, or goes on after the numbers that servers keep for it.
/// All servers are greeted before the first line is, and each has ten seconds to answer. A
/// connection that is lost is greeted again, and what is pending is sent again; if a server is away
/// for longer while nothing is pending, it is tried again at the next line. A tick of the client's
/// clock is a millisecond since the call began.
///
/// # Errors
///
/// `Line` with the number of the first line that was not done, from 1: the outcomes of the lines
/// before it are written. `NoConnection` and `Refused` of the first server that is given up or that
/// refuses a request; `NotAServer` of what answers a greeting as no server does; `Restored` of a
/// server that has lost what it answered; `InUse` of one if another program uses the client's
/// number. `Read`, `Turns`, `Write` and `Clock` if the input, the output or the clock fails.
/// `Memory` if memory, or a thread, cannot be had outside of a line.
pub fn call<
    S: Net<Listener = TcpListener, Stream = TcpStream> + Threads + Wait + Clock + Sync,
    R: Read,
    W: Write,
>(
    rt: &S,
    alloc: Global,
    reader: &mut R,
    writer: &mut W,
    client: u32,
    ports: &[u16],
    goes_on: bool,
) -> Result<(), CallFault>
    requires some { 1 ≤ length ports.now }
    requires few { length ports.now ≤ MAX_SERVERS }
{
    let manner = Manner {
        goes_on,
        together: false,
    };
    call_in_manner(rt, alloc, reader, writer, client, ports, manner)
}

/// Plays lines as `call` does, in this manner. If tuples are put together, lines `out TUPLE` that
/// came in one read go out one after the other, up to 64 before their outcomes; each outcome has
/// its own line, in the order of the lines, and other lines wait until all before them are
/// answered. The j-th tuple, from 0, goes to the server that the client's number plus j leaves by
/// the count of servers. After a lost connection the last number that a server keeps says which
/// tuples it stored: their ids are lost, and their line is `C stored S none`, but for the last one;
/// the others are sent again.
///
/// # Errors
///
/// As those of `call`. If a server refuses a tuple, the outcomes of the lines before are written.
pub fn call_in_manner<
    S: Net<Listener = TcpListener, Stream = TcpStream> + Threads + Wait + Clock + Sync,
    R: Read,
    W: Write,
>(
    rt: &S,
    alloc: Global,
    reader: &mut R,
    writer: &mut W,
    client: u32,
    ports: &[u16],
    manner: Manner,
) -> Result<(), CallFault>
    requires some { 1 ≤ length ports.now }
    requires few { length ports.now ≤ MAX_SERVERS }
{
    let links = links_to(alloc, client, ports, !manner.goes_on)?;
    call_over(rt, alloc, reader, writer, client, &links, manner)
}

/// Plays lines as `call` does, over the servers that listen on the unix sockets at these paths,
/// which are numbered from 0.
///
/// # Errors
///
/// As those of `call`. A server that this user may not connect to is one without a connection.
pub fn call_at<
    S: Net<Listener = TcpListener, Stream = TcpStream> + Threads + Wait + Clock + Sync,
    R: Read,
    W: Write,
>(
    rt: &S,
    alloc: Global,
    reader: &mut R,
    writer: &mut W,
    client: u32,
    paths: &[String],
    goes_on: bool,
) -> Result<(), CallFault>
    requires some { 1 ≤ length paths.now }
    requires few { length paths.now ≤ MAX_SERVERS }
{
    let manner = Manner {
        goes_on,
        together: false,
    };
    call_at_in_manner(rt, alloc, reader, writer, client, paths, manner)
}

/// Plays lines as `call_in_manner` does, over the servers that listen on the unix sockets at these
/// paths, which are numbered from 0.
///
/// # Errors
///
/// As those of `call_at`.
pub fn call_at_in_manner<
    S: Net<Listener = TcpListener, Stream = TcpStream> + Threads + Wait + Clock + Sync,
    R: Read,
    W: Write,
>(
    rt: &S,
    alloc: Global,
    reader: &mut R,
    writer: &mut W,
    client: u32,
    paths: &[String],
    manner: Manner,
) -> Result<(), CallFault>
    requires some { 1 ≤ length paths.now }
    requires few { length paths.now ≤ MAX_SERVERS }
{
    let links = links_at(alloc, client, paths, !manner.goes_on)?;
    call_over(rt, alloc, reader, writer, client, &links, manner)
}

// Plays the lines over these links.
fn call_over<
    S: Net<Listener = TcpListener, Stream = TcpStream> + Threads + Wait + Clock + Sync,
    R: Read,
    W: Write,
>(
    rt: &S,
    alloc: Global,
    reader: &mut R,
    writer: &mut W,
    client: u32,
    all: &[ServerLink],
    manner: Manner,
) -> Result<(), CallFault>
    requires some { 1 ≤ length all.now }
    requires few { length all.now ≤ MAX_SERVERS }
{
    let inbox = EventInbox::new(alloc);
    let arrivals = &inbox;
    let caller = Caller::new(rt, alloc, arrivals, all, client, manner)?;
    thread::scope(thread::scope_env(), rt, |scope| {
        let mut is_kept = true;
        for link in all {
            is_kept = is_kept && scope.spawn(move || link.keep(rt, alloc, arrivals)).is_ok();
        }
        let ended = if is_kept {
            play(rt, alloc, reader, writer, caller)
        } else {
            Err(CallFault::Memory)
        };
        arrivals.end(rt);
        for link in all {
            link.end(rt);
        }
        ended
    })
}

// A link to each port, numbered from 0.
fn links_to(
    alloc: Global,
    client: u32,
    ports: &[u16],
    fresh: bool,
) -> Result<Vec<ServerLink>, AllocError>
    requires { length ports.now ≤ MAX_SERVERS }
    ensures each { IfOk result (λ links. IsLinked client fresh ports.now links.items) }
    ensures len { IfOk result (λ links. vec_len links ≡ length ports.now) }
{
    let mut links = Vec::new(alloc);
    for (server, port) in ports.iter().enumerate() {
        links.push(ServerLink::new(server as u32, *port, client, fresh))?;
    }
    Ok(links)
}

// A link to the socket at each path, numbered from 0.
fn links_at(
    alloc: Global,
    client: u32,
    paths: &[String],
    fresh: bool,
) -> Result<Vec<ServerLink>, AllocError>
    requires { length paths.now ≤ MAX_SERVERS }
    ensures each { IfOk result (λ links. IsLinkedAt client fresh (map string_bytes paths.now)
        links.items) }
    ensures len { IfOk result (λ links. vec_len links ≡ length paths.now) }
{
    let mut links = Vec::new(alloc);
    for (server, path) in paths.iter().enumerate() {
        let path = String::from_str(alloc, path.as_str())?;
        links.push(ServerLink::at(server as u32, path, client, fresh))?;
    }
    Ok(links)
}

// Waits until every server has welcomed the client, and then does the lines, to the end of the
// input.
fn play<S: Wait + Clock, R: Read, W: Write>(
    rt: &S,
    alloc: Global,
    reader: &mut R,
    writer: &mut W,
    caller: Caller<'_>,
) -> Result<(), CallFault> {
    let mut lines = LineRunner {
        caller,
        line: Vec::new(alloc),
        count: Count::first(),
    };
    lines.caller.await_welcomes(rt, alloc, writer)?;
    let mut buffer = [0; BUFFER];
    for _turn in 0..MAX_READS {
        let Ok(count) = reader.read(&mut buffer) else {
            return Err(CallFault::Read);
        };
        if count == 0 {
            lines.end_line(rt, alloc, writer)?;
            return lines.caller.finish_puts(rt, alloc, writer);
        }
        lines.take(rt, alloc, &buffer[..count], writer)?;
    }
    Err(CallFault::Turns)
}

// A client at work, the line that was begun, and its number.
#[derive(Drop)]
struct LineRunner<'a> {
    caller: Caller<'a>,
    line: Vec<u8>,
    count: Count,
}

impl LineRunner<'_> {
    // Takes a piece of the input, and does the lines that end in it. All of them are answered
    // before more is read.
    fn take<S: Wait + Clock, W: Write>(
        &mut self,
        rt: &S,
        alloc: Global,
        piece: &[u8],
        writer: &mut W,
    ) -> Result<(), CallFault> {
        let mut rest = piece;
        for _ in 0..piece.len() {
            let Ok(later) = extend_line(&mut self.line, rest) else {
                return Err(self.count.memory());
            };
            let Some(later) = later else {
                break;
            };
            self.end_line(rt, alloc, writer)?;
            rest = later;
        }
        self.caller.finish_puts(rt, alloc, writer)
    }

    // Does the line that was begun, and begins the next one. Memory that runs out is reported as a
    // fault of the line.
    fn end_line<S: Wait + Clock, W: Write>(
        &mut self,
        rt: &S,
        alloc: Global,
        writer: &mut W,
    ) -> Result<(), CallFault> {
        let done = self
            .caller
            .run_line(rt, alloc, without_return(&self.line), writer);
        if let Some(fault) = self.count.end(done) {
            return Err(fault);
        }
        self.line.clear();
        self.count.pass();
        Ok(())
    }
}
