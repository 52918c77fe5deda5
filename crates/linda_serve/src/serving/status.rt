//! Status of a server: a port or a unix socket, and what is said there.

use super::fault::ServingFault;
use super::listeners::listen_on;
use super::socket::{OwnFile, file_at, listen_at};
use linda_net::{Listener, Status};
use linda_serve_plan::StatusPlace;
use linda_status::{About, Pages};
use std::alloc::Global;
use std::fs::{File, Files};
use std::net::{Net, TcpListener, TcpStream};
use std::os::unix::net::UnixListener;
use std::time::{Clock, Instant};

/// The mode of the unix socket of a status: only its owner may connect.
const STATUS_MODE: u32 = 0o600;

/// Listens at the place of the status, if there is one.
///
/// # Errors
///
/// `Io`: that cannot be listened on. `Memory`.
pub(super) fn listen_for_status<
    F: Files<File = File> + Net,
    S: Net<Listener = TcpListener, Stream = TcpStream>,
>(
    files: &F,
    rt: &S,
    alloc: Global,
    status: Option<&StatusPlace>,
) -> Result<Option<Listener>, ServingFault> {
    match status {
        Some(StatusPlace::Port(port)) => Ok(Some(Listener::Port(listen_on(rt, *port)?))),
        Some(StatusPlace::Path(path)) => {
            let socket = listen_at(files, alloc, path, STATUS_MODE)?;
            Ok(Some(Listener::Socket(socket)))
        }
        None => Ok(None),
    }
}

/// Keeps the socket of the status open until its file is removed, so that nobody replaces it
/// before.
pub(super) fn kept_status(asked: &Result<Option<Listener>, ServingFault>) -> Option<UnixListener> {
    match asked {
        Ok(Some(Listener::Socket(socket))) => socket.try_clone().ok(),
        Ok(Some(Listener::Port(_))) => None,
        Ok(None) => None,
        Err(_) => None,
    }
}

/// The file of the socket of the status, if it is listened on.
pub(super) fn own_file_of_status<F: Files>(
    files: &F,
    asked: &Result<Option<Listener>, ServingFault>,
    status: Option<&StatusPlace>,
) -> Option<OwnFile> {
    if asked.is_err() {
        return None;
    }
    match status {
        Some(StatusPlace::Path(path)) => file_at(files, path),
        Some(StatusPlace::Port(_)) => None,
        None => None,
    }
}

/// The status that is given over this listener, if there is one.
pub(super) fn status_at<'a, S: Clock>(
    rt: &S,
    alloc: Global,
    asked: Option<Listener>,
    about: About<'a>,
    metrics: &'a [String],
) -> Option<Status<Pages<'a>>> {
    let listener = asked?;
    let teller = Pages {
        alloc,
        about,
        metrics,
        begin: Instant::now(rt).ok(),
    };
    Some(Status { listener, teller })
}
