//! A unix socket on which a server listens: who may connect, and what was at its path before.

use super::fault::ServingFault;
use mio::net::UnixStream;
use std::alloc::Global;
use std::fs;
use std::fs::{DirBuilder, Files, Permissions};
use std::io::ErrorKind;
use std::net::Net;
use std::os::unix::fs::{DirBuilderExt, FileTypeExt, MetadataExt, PermissionsExt};
use std::os::unix::net::UnixListener;

/// How many names are tried for the folder in which a socket is made.
const TRIES: u32 = 10;

/// Who may go into that folder: its owner.
const PRIVATE: u32 = 0o700;

/// Listens on a unix socket at a path, whose file has this mode. It is made in a folder that nobody
/// else may go into, and gets its mode there, and then its path by a hard link, which overwrites
/// nothing: so nobody connects whom the mode keeps out. What is left at the path of a server that
/// was killed is replaced; of two servers that do so at the same moment one may lose its path. All
/// else that is there stays.
///
/// # Errors
///
/// `Io`: somebody listens there, or something else is there; the path has too many bytes, or its
/// folder is missing or cannot be written. `Memory`.
pub(super) fn listen_at<R: Files + Net>(
    rt: &R,
    alloc: Global,
    path: &str,
    mode: u32,
) -> Result<UnixListener, ServingFault> {
    make_way(rt, path)?;
    let folder = private_folder(rt, alloc, path)?;
    let made = format!(in alloc; "{folder}/s")?;
    let listener = listen_in(rt, &made, path, mode);
    let _ = fs::remove_file(rt, made.as_str()).is_err();
    let _ = fs::remove_dir(rt, folder.as_str()).is_err();
    listener
}

/// A file, by which it is known again: its device, and its number there.
#[derive(Clone, Copy, PartialEq, Eq)]
pub(super) struct OwnFile {
    device: u64,
    number: u64,
}

/// The file at a path, if there is one.
pub(super) fn file_at<R: Files>(rt: &R, path: &str) -> Option<OwnFile> {
    let found = fs::symlink_metadata(rt, path).ok()?;
    Some(OwnFile {
        device: found.dev(),
        number: found.ino(),
    })
}

/// Removes the file of a socket that a server listens on no more, if it is still its own: another
/// server may have one there by now.
pub(super) fn remove<R: Files>(rt: &R, path: &str, own: Option<OwnFile>) {
    if own.is_some() && file_at(rt, path) == own {
        let _ = fs::remove_file(rt, path).is_err();
    }
}

// Listens on a socket of this name, and gives it its mode, and then its path.
fn listen_in<R: Files + Net>(
    rt: &R,
    made: &str,
    path: &str,
    mode: u32,
) -> Result<UnixListener, ServingFault> {
    let Ok(listener) = UnixListener::bind(rt, made) else {
        return Err(ServingFault::Io);
    };
    let permissions = Permissions::from_mode(mode);
    if fs::set_permissions(rt, made, permissions).is_err() {
        return Err(ServingFault::Io);
    }
    if fs::hard_link(rt, made, path).is_err() {
        return Err(ServingFault::Io);
    }
    Ok(listener)
}

// A new folder beside the path, which only its owner may go into.
fn private_folder<R: Files>(rt: &R, alloc: Global, path: &str) -> Result<String, ServingFault> {
    for number in 0..TRIES {
        let folder = format!(in alloc; "{path}.{number}")?;
        match DirBuilder::new().mode(PRIVATE).create(rt, folder.as_str()) {
            Ok(()) => return Ok(folder),
            Err(error) => {
                if error.kind() != ErrorKind::AlreadyExists {
                    return Err(ServingFault::Io);
                }
            }
        }
    }
    Err(ServingFault::Io)
}

// Removes a socket at the path on which nobody listens. All else there is refused.
fn make_way<R: Files + Net>(rt: &R, path: &str) -> Result<(), ServingFault> {
    match fs::symlink_metadata(rt, path) {
        Ok(found) => {
            if found.file_type().is_socket() && is_left(rt, path) {
                return removed(rt, path);
            }
            Err(ServingFault::Io)
        }
        Err(error) => {
            if error.kind() == ErrorKind::NotFound {
                return Ok(());
            }
            Err(ServingFault::Io)
        }
    }
}

// Whether nobody listens on the socket at the path.
fn is_left<R: Net>(rt: &R, path: &str) -> bool {
    match UnixStream::connect(rt, path) {
        Ok(_) => false,
        Err(error) => error.kind() == ErrorKind::ConnectionRefused,
    }
}

// Removes what is at the path.
fn removed<R: Files>(rt: &R, path: &str) -> Result<(), ServingFault> {
    match fs::remove_file(rt, path) {
        Ok(()) => Ok(()),
        Err(_) => Err(ServingFault::Io),
    }
}
