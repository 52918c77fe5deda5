//! The unix socket where a gate listens.

use std::alloc::Global;
use std::fs::{DirBuilder, Files, Permissions};
use std::io::ErrorKind;
use std::net::Net;
use std::os::unix::fs::{DirBuilderExt, FileTypeExt, PermissionsExt};
use std::os::unix::net::{UnixListener, UnixStream};
use std::{fs, io};

/// How many names are tried for the folder in which the socket is made.
const TRIES: u32 = 10;

/// Who may go into that folder: its owner.
const PRIVATE: u32 = 0o700;

/// Listens on a unix socket. It is made in a folder that nobody else may go into, and gets its mode
/// there, and then its path: so nobody connects whom the mode keeps out. A socket on which nobody
/// listens is replaced. All else that is there stays.
///
/// # Errors
///
/// Somebody listens there, or something else is there; its folder is missing or cannot be written;
/// memory ran out.
pub(crate) fn listen_at<R: Files + Net>(
    rt: &R,
    alloc: Global,
    path: &str,
    mode: u32,
) -> io::Result<UnixListener> {
    make_way(rt, path)?;
    let folder = private_folder(rt, alloc, path)?;
    let made = format!(in alloc; "{folder}/s")?;
    let listener = listen_in(rt, &made, path, mode);
    let _ = fs::remove_file(rt, made.as_str()).is_err();
    let _ = fs::remove_dir(rt, folder.as_str()).is_err();
    listener
}

// Listens on a socket of this name, and gives it its mode, and then its path.
fn listen_in<R: Files + Net>(
    rt: &R,
    made: &str,
    path: &str,
    mode: u32,
) -> io::Result<UnixListener> {
    let listener = UnixListener::bind(rt, made)?;
    fs::set_permissions(rt, made, Permissions::from_mode(mode))?;
    fs::hard_link(rt, made, path)?;
    Ok(listener)
}

// A new folder beside the path, which only its owner may go into.
fn private_folder<R: Files>(rt: &R, alloc: Global, path: &str) -> io::Result<String> {
    for number in 0..TRIES {
        let folder = format!(in alloc; "{path}.{number}")?;
        match DirBuilder::new().mode(PRIVATE).create(rt, folder.as_str()) {
            Ok(()) => return Ok(folder),
            Err(error) => {
                if error.kind() != ErrorKind::AlreadyExists {
                    return Err(error);
                }
            }
        }
    }
    Err(ErrorKind::AlreadyExists.into())
}

// Removes a socket at the path on which nobody listens.
fn make_way<R: Files + Net>(rt: &R, path: &str) -> io::Result<()> {
    let Ok(found) = fs::symlink_metadata(rt, path) else {
        return Ok(());
    };
    if found.file_type().is_socket() && is_left(rt, path) {
        return fs::remove_file(rt, path);
    }
    Err(ErrorKind::AddrInUse.into())
}

// Whether nobody listens on the socket at the path.
fn is_left<R: Net>(rt: &R, path: &str) -> bool {
    match UnixStream::connect(rt, path) {
        Ok(_) => false,
        Err(error) => error.kind() == ErrorKind::ConnectionRefused,
    }
}
