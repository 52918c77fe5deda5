//! The bytes of the two banks of a folder, of one moment, though a server may be at work on them.
//!
//! A file is read from the front to its end: a record is there before its gate opens, and comes
//! after it. If both files begin afterwards as they did, no bank was begun anew meanwhile.

ghost use Rattle.std.specs.Prelude.{◌≡◌, ◌↔◌, take, IsTrue};
ghost use Rattle.linda_serve.specs.declared.inspecting.banks.TheConstants.{FRONT};

use crate::bank_file::{check_apart, check_kind, fault_of};
use crate::serving::{LEFT, RIGHT, ServingFault};
use linda_journal::LENGTH_PLACE;
use std::alloc::Global;
use std::fs;
use std::fs::{File, Files};
use std::io::{ErrorKind, Read};

// How often they are read if a bank is begun anew meanwhile.
const READINGS: u32 = 100;

// The bytes of a bank that say which one it is: its gate, four letters and the generation.
const FRONT: usize = LENGTH_PLACE;

/// The bytes of both banks; none of a file that is missing.
#[derive(Drop)]
pub(super) struct BankBytes {
    pub left: Vec<u8>,
    pub right: Vec<u8>,
}

/// Reads both banks of a folder.
///
/// # Errors
///
/// `Disk` if the folder or a file cannot be read, a bank is no regular file, or both are one file;
/// `InUse` if a bank was begun anew at each reading; `Memory`.
pub(super) fn read_banks<F: Files<File = File>>(
    files: &F,
    alloc: Global,
    folder: &str,
) -> Result<BankBytes, ServingFault> {
    if File::open(files, folder).is_err() {
        return Err(ServingFault::Disk);
    }
    let left_path = format!(in alloc; "{folder}/{LEFT}")?;
    let right_path = format!(in alloc; "{folder}/{RIGHT}")?;
    check_both(files, &left_path, &right_path)?;
    for _ in 0..READINGS {
        let left = read_bank(files, alloc, &left_path)?;
        let right = read_bank(files, alloc, &right_path)?;
        if begins_so(files, &left_path, &left)? && begins_so(files, &right_path, &right)? {
            return Ok(BankBytes { left, right });
        }
    }
    Err(ServingFault::InUse)
}

// Refuses what cannot be two banks. One that is missing may be one.
fn check_both<F: Files<File = File>>(
    files: &F,
    left: &str,
    right: &str,
) -> Result<(), ServingFault> {
    check_kind(files, left)?;
    check_kind(files, right)?;
    match (fs::exists(files, left), fs::exists(files, right)) {
        (Ok(true), Ok(true)) => check_apart(fs::metadata(files, left), fs::metadata(files, right)),
        _ => Ok(()),
    }
}

// The bytes of a file; none if it is missing.
fn read_bank<F: Files<File = File>>(
    files: &F,
    alloc: Global,
    path: &str,
) -> Result<Vec<u8>, ServingFault> {
    let mut bytes = Vec::new(alloc);
    let Some(mut file) = open_bank(files, path)? else {
        return Ok(bytes);
    };
    match file.read_to_end(&mut bytes) {
        Ok(_) => Ok(bytes),
        Err(error) => Err(fault_of(&error)),
    }
}

// Whether a file begins with what these bytes begin with.
fn begins_so<F: Files<File = File>>(
    files: &F,
    path: &str,
    bytes: &[u8],
) -> Result<bool, ServingFault> {
    let Some(mut file) = open_bank(files, path)? else {
        return Ok(bytes.is_empty());
    };
    let mut front = [0; FRONT];
    match file.read(&mut front) {
        Ok(count) => Ok(begins_as(&front[..count], bytes)),
        Err(error) => Err(fault_of(&error)),
    }
}

// Whether a file that begins so, as far as a front goes, begins as these bytes.
fn begins_as(front: &[u8], bytes: &[u8]) -> bool
    ensures { IsTrue result ↔ (front.now ≡ take FRONT bytes.now) }
{
    front == &bytes[..bytes.len().min(FRONT)]
}

// The file, opened for reading; `None` if it is missing.
fn open_bank<F: Files<File = File>>(files: &F, path: &str) -> Result<Option<File>, ServingFault> {
    match File::open(files, path) {
        Ok(file) => Ok(Some(file)),
        Err(error) => {
            if error.kind() == ErrorKind::NotFound {
                return Ok(None);
            }
            Err(fault_of(&error))
        }
    }
}
