//! Files that may be a bank: a regular one, and another one than the other bank's.

use crate::serving::ServingFault;
use std::fs::{File, Files, Metadata};
use std::io::ErrorKind;
use std::os::unix::fs::MetadataExt;
use std::{fs, io};

/// Refuses what is there under this path and is no regular file: to open a pipe may wait for ever,
/// and a device keeps nothing. A link to nothing is refused too. Nothing is opened.
///
/// # Errors
///
/// `Disk`, also if the path cannot be looked at; `Memory`.
pub(crate) fn check_kind<F: Files<File = File>>(files: &F, path: &str) -> Result<(), ServingFault> {
    match fs::metadata(files, path) {
        Ok(found) if found.is_file() => Ok(()),
        Ok(_) => Err(ServingFault::Disk),
        Err(error) if error.kind() == ErrorKind::NotFound => check_missing(files, path),
        Err(error) => Err(fault_of(&error)),
    }
}

// Refuses a link to nothing: what it names may be on a device that is not mounted. A file that came
// meanwhile may be a bank.
fn check_missing<F: Files<File = File>>(files: &F, path: &str) -> Result<(), ServingFault> {
    match fs::symlink_metadata(files, path) {
        Ok(found) if found.is_file() => Ok(()),
        Ok(_) => Err(ServingFault::Disk),
        Err(error) if error.kind() == ErrorKind::NotFound => Ok(()),
        Err(error) => Err(fault_of(&error)),
    }
}

/// Refuses two banks that are one file, by a link.
///
/// # Errors
///
/// `Disk`, also if one of them cannot be looked at; `Memory`.
pub(crate) fn check_apart(
    left: io::Result<Metadata>,
    right: io::Result<Metadata>,
) -> Result<(), ServingFault> {
    match (left, right) {
        (Ok(left), Ok(right)) => {
            if left.dev() == right.dev() && left.ino() == right.ino() {
                return Err(ServingFault::Disk);
            }
            Ok(())
        }
        (Err(error), _) => Err(fault_of(&error)),
        (_, Err(error)) => Err(fault_of(&error)),
    }
}

/// What is returned if a file was not read.
pub(crate) fn fault_of(error: &io::Error) -> ServingFault {
    if error.kind() == ErrorKind::OutOfMemory {
        return ServingFault::Memory;
    }
    ServingFault::Disk
}
