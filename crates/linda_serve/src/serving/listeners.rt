//! Listeners of a server: on its port and on its unix socket, and the line that names one of them.

use super::address::{of_this_machine, ready_line, ready_line_at};
use super::fault::ServingFault;
use super::socket::{OwnFile, file_at, listen_at};
use linda_net::ListeningSockets;
use linda_serve_plan::{ServePlan, SocketFile};
use std::alloc::Global;
use std::fs::{File, Files};
use std::io::Write;
use std::net::{Net, TcpListener, TcpStream};
use std::os::unix::net::UnixListener;

/// Listens on the port and on the socket of the plan.
///
/// # Errors
///
/// `Io`: one of them cannot be listened on. `Memory`.
pub(super) fn bind_listeners<
    F: Files<File = File> + Net,
    S: Net<Listener = TcpListener, Stream = TcpStream>,
>(files: &F, rt: &S, alloc: Global, plan: &ServePlan) -> Result<ListeningSockets, ServingFault> {
    let port = match plan.port {
        Some(port) => Some(listen_on(rt, port)?),
        None => None,
    };
    let socket = match &plan.socket {
        Some(socket) => Some(listen_at(files, alloc, &socket.path, socket.mode)?),
        None => None,
    };
    Ok(ListeningSockets { port, socket })
}

/// Keeps the socket open until its file is removed, so that nobody replaces it before.
pub(super) fn keep_socket_open(listeners: &ListeningSockets) -> Option<UnixListener> {
    let socket = listeners.socket.as_ref()?;
    socket.try_clone().ok()
}

/// Listens on a port of this machine. As many connections may wait there as the system allows.
///
/// # Errors
///
/// `Io`: it cannot be listened on.
pub(super) fn listen_on<S: Net<Listener = TcpListener, Stream = TcpStream>>(
    rt: &S,
    port: u16,
) -> Result<TcpListener, ServingFault> {
    let Ok(listener) = mio::net::TcpListener::bind(rt, of_this_machine(port)) else {
        return Err(ServingFault::Io);
    };
    let listener = TcpListener::from(listener);
    match listener.set_nonblocking(false) {
        Ok(()) => Ok(listener),
        Err(_) => Err(ServingFault::Io),
    }
}

/// The file of a socket that is listened on, if there is one.
pub(super) fn own_file<F: Files>(files: &F, socket: Option<&SocketFile>) -> Option<OwnFile> {
    let socket = socket?;
    file_at(files, &socket.path)
}

/// On which port it listens, if it does.
///
/// # Errors
///
/// `Io`: the system does not say which.
pub(super) fn port_of(listeners: &ListeningSockets) -> Result<Option<u16>, ServingFault> {
    let Some(listener) = &listeners.port else {
        return Ok(None);
    };
    match listener.local_addr() {
        Ok(address) => Ok(Some(address.port())),
        Err(_) => Err(ServingFault::Io),
    }
}

/// Writes on which port it listens, or at which path if it listens on none.
///
/// # Errors
///
/// `Io`: it listens nowhere, or the output fails. `Memory`.
pub(super) fn tell_ready<W: Write>(
    alloc: Global,
    writer: &mut W,
    port: Option<u16>,
    path: Option<&str>,
) -> Result<(), ServingFault> {
    let line = match (port, path) {
        (Some(port), _) => ready_line(alloc, port)?,
        (None, Some(path)) => ready_line_at(alloc, path)?,
        (None, None) => return Err(ServingFault::Io),
    };
    if writer.write_all(line.as_bytes()).is_err() || writer.flush().is_err() {
        return Err(ServingFault::Io);
    }
    Ok(())
}
