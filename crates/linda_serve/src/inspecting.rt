//! `linda inspect`: what the store in a folder comes to, as lines or as one JSON object. Its files
//! are opened only for reading, and no lock is taken.

mod banks;

ghost use Rattle.std.specs.Prelude.{◌≡◌};
ghost use Rattle.linda_serve.specs.Faults.{inspected_as};

use crate::serving::ServingFault;
use banks::{BankBytes, read_banks};
use linda_inspect::{InspectFault, Lists, write_json, write_report};
use linda_server::MAX_LIMIT;
use std::alloc::Global;
use std::fs::{File, Files};
use std::io::{BufWriter, Write};

// The object is written in pieces of so many bytes.
const PIECE: usize = 65_536;

/// Writes what the store in a folder comes to, as `write_report` does of the bytes of its two
/// files, of which one that is missing is empty.
///
/// # Errors
///
/// As a server returns them that is not kept from the folder by another one: `NoStore`, `Damaged`,
/// `Disk` if the folder or a file in it cannot be read, `Memory`; `Io` if the output fails. `InUse`
/// if a server went over to its other bank at each reading.
pub fn inspect_folder<F: Files<File = File>, W: Write>(
    files: &F,
    alloc: Global,
    writer: &mut W,
    folder: &str,
    lists: Lists,
) -> Result<(), ServingFault> {
    let BankBytes { left, right } = read_banks(files, alloc, folder)?;
    let told = write_report(alloc, writer, left, right, MAX_LIMIT, lists);
    ended(told, writer.flush().is_ok())
}

/// Writes the same as one JSON object, as `write_json` does.
///
/// # Errors
///
/// As `inspect_folder`.
pub fn inspect_folder_as_json<F: Files<File = File>, W: Write>(
    files: &F,
    alloc: Global,
    writer: &mut W,
    folder: &str,
    lists: Lists,
) -> Result<(), ServingFault> {
    let BankBytes { left, right } = read_banks(files, alloc, folder)?;
    let Ok(mut out) = BufWriter::with_capacity(alloc, PIECE, writer) else {
        return Err(ServingFault::Memory);
    };
    let told = write_json(alloc, &mut out, left, right, MAX_LIMIT, lists);
    ended(told, out.flush().is_ok())
}

// How an inspection ends whose report came to this, and was flushed or was not.
fn ended(told: Result<(), InspectFault>, is_flushed: bool) -> Result<(), ServingFault>
    ensures { result ≡ inspected_as told is_flushed }
{
    if !is_flushed {
        return Err(ServingFault::Io);
    }
    match told {
        Ok(()) => Ok(()),
        Err(fault) => Err(ServingFault::from(fault)),
    }
}
