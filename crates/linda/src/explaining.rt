//! The second line of a fault, if one is wanted: where a line of the input goes wrong, or what the
//! system says of a folder, a port or a socket. It is looked for once the fault was printed, so it
//! may say nothing.

use crate::refusals::meaning_of;
use linda_explain::{LineSource, RecentLinesReader, explain};
use linda_serve_plan::{ServePlan, StatusPlace};
use std::fmt::Display;
use std::fs::{self, OpenOptions};
use std::io::{Error, ErrorKind, IsTerminal, Read};
use std::net::{Ipv4Addr, Net, SocketAddr, TcpListener, TcpStream};
use std::os::unix::fs::MetadataExt;
use std::os::unix::net::UnixStream;

/// How many bytes the path of a unix socket has at most: some are added while it is made.
const LONGEST_PATH: usize = 103;

/// Why one place cannot be that of clients and that of the status.
const FOR_BOTH: &str = "given for clients and for the status";

/// Whether a second line is wanted: it was asked for, or standard error is a terminal.
pub(crate) fn is_wanted(rt: &HostRuntime, is_asked: bool) -> bool {
    is_asked || rt.stderr().is_terminal()
}

/// Says where the line of this number goes wrong, and what was expected there.
pub(crate) fn explain_line<R: Read>(
    rt: &HostRuntime,
    keeper: &RecentLinesReader<'_, R>,
    number: u64,
    lines: LineSource,
) {
    if let Some(line) = keeper.line(number) {
        if let Ok(said) = explain(rt.alloc(), number, line, lines) {
            let _ = rt.eprintln(said);
        }
    }
}

/// Says why the folder of a store, or a bank in it, cannot be opened; to be served a bank is opened
/// for writing too.
pub(crate) fn tell_folder(rt: &HostRuntime, folder: &str, is_served: bool) {
    if tell_opened(rt, folder, false) {
        return;
    }
    for name in ["left.bank", "right.bank"] {
        let Ok(path) = format!(in rt.alloc(); "{folder}/{name}") else {
            return;
        };
        if tell_bank(rt, &path, is_served) {
            return;
        }
    }
    tell_one_file(rt, folder);
}

// Says that both banks of a folder are one file, if they are: by a link, say.
fn tell_one_file(rt: &HostRuntime, folder: &str) {
    let alloc = rt.alloc();
    let (Ok(left), Ok(right)) = (
        format!(in alloc; "{folder}/left.bank"),
        format!(in alloc; "{folder}/right.bank"),
    ) else {
        return;
    };
    if let (Ok(one), Ok(other)) = (
        fs::metadata(rt, left.as_str()),
        fs::metadata(rt, right.as_str()),
    ) {
        if one.dev() == other.dev() && one.ino() == other.ino() {
            tell(rt, folder, "left.bank and right.bank are one file");
        }
    }
}

// Says why the file of a bank cannot be opened. Returns whether it said something; a file that is
// not there is no fault.
fn tell_bank(rt: &HostRuntime, path: &str, is_served: bool) -> bool {
    match fs::metadata(rt, path) {
        Ok(found) if found.is_file() => tell_opened(rt, path, is_served),
        Ok(_) => tell(rt, path, "not a regular file"),
        Err(error) => {
            if error.kind() != ErrorKind::NotFound {
                return tell(rt, path, error);
            }
            fs::symlink_metadata(rt, path).is_ok() && tell(rt, path, "a link to nothing")
        }
    }
}

// Says why a file or a folder cannot be opened. Returns whether it said something.
fn tell_opened(rt: &HostRuntime, path: &str, is_written: bool) -> bool {
    let opened = OpenOptions::new()
        .read(true)
        .write(is_written)
        .open(rt, path);
    match opened {
        Ok(_) => false,
        Err(error) => tell_file(rt, path, error),
    }
}

/// Says why a file cannot be opened; an empty path is shown as two quotes. Returns true.
pub(crate) fn tell_file(rt: &HostRuntime, path: &str, error: Error) -> bool {
    tell(rt, if path.is_empty() { "\"\"" } else { path }, error)
}

/// Says that another server has the folder of a store open.
pub(crate) fn tell_in_use(rt: &HostRuntime, folder: &str) {
    tell(
        rt,
        folder,
        "another server has it open; --wait waits for it",
    );
}

/// Says what it means that the server at this place refused something with this code.
pub(crate) fn tell_refusal<D: Display + Drop>(rt: &HostRuntime, place: D, code: u8) {
    if let Some(meaning) = meaning_of(code) {
        tell(rt, place, meaning);
    }
}

/// Says where a server cannot listen, and why: on the port, at the socket or for its status.
pub(crate) fn tell_listened<S: Net<Listener = TcpListener, Stream = TcpStream>>(
    rt: &HostRuntime,
    net: &S,
    plan: &ServePlan,
) {
    if let Some(port) = plan.port {
        if tell_bound(rt, net, port) {
            return;
        }
    }
    if let Some(socket) = &plan.socket {
        if tell_place(rt, &socket.path) {
            return;
        }
    }
    match &plan.status {
        Some(StatusPlace::Port(port)) => {
            if plan.port == Some(*port) {
                tell(rt, *port, FOR_BOTH);
            } else {
                tell_bound(rt, net, *port);
            }
        }
        Some(StatusPlace::Path(path)) => match &plan.socket {
            Some(socket) if socket.path == *path => {
                tell(rt, path, FOR_BOTH);
            }
            _ => {
                tell_place(rt, path);
            }
        },
        None => {}
    }
}

// Says why a port of this machine cannot be listened on. Returns whether it said something.
fn tell_bound<S: Net<Listener = TcpListener, Stream = TcpStream>>(
    rt: &HostRuntime,
    net: &S,
    port: u16,
) -> bool {
    match TcpListener::bind(net, of_this_machine(port)) {
        Ok(_) => false,
        Err(error) => tell(rt, port, error),
    }
}

// Says why no unix socket can be made at a path. Returns whether it said something.
fn tell_place(rt: &HostRuntime, path: &str) -> bool {
    if path.len() > LONGEST_PATH {
        return tell(rt, path, "a longer path than a socket may have");
    }
    if fs::symlink_metadata(rt, path).is_ok() {
        return tell(rt, path, "a file is there, or a socket that is in use");
    }
    match path.rsplit_once('/') {
        Some((folder, _)) => match fs::metadata(rt, folder) {
            Ok(_) => false,
            Err(error) => tell(rt, folder, error),
        },
        None => false,
    }
}

/// Says why no connection to a port of this machine can be had.
pub(crate) fn tell_port<S: Net<Listener = TcpListener, Stream = TcpStream>>(
    rt: &HostRuntime,
    net: &S,
    port: u16,
) {
    if let Err(error) = TcpStream::connect(net, of_this_machine(port)) {
        tell(rt, port, error);
    }
}

/// Says why no connection to the unix socket at a path can be had.
pub(crate) fn tell_socket<S: Net<Listener = TcpListener, Stream = TcpStream>>(
    rt: &HostRuntime,
    net: &S,
    path: &str,
) {
    if let Err(error) = UnixStream::connect(net, path) {
        tell(rt, path, error);
    }
}

fn of_this_machine(port: u16) -> SocketAddr {
    SocketAddr::from((Ipv4Addr::LOCALHOST, port))
}

// Prints what there is to say of a place. Returns true.
fn tell<D: Display + Drop, E: Display + Drop>(rt: &HostRuntime, place: D, said: E) -> bool {
    if let Ok(line) = format!(in rt.alloc(); "{place}: {said}") {
        let _ = rt.eprintln(line);
    }
    true
}
