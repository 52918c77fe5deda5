//! Servers on both disks, made and opened, which give these back.

use crate::disks::disks::Disks;
use crate::disks::serving::look;
use linda_disk::MemDisk;
use linda_server::{Durable, OpenFault};
use linda_test_script::{WordsFault, read_size, tell};
use std::alloc::Global;

/// Makes a server of this limit on the two disks, and says what it keeps, or why there is none.
pub(crate) fn create(
    alloc: Global,
    disks: &mut Disks,
    server: &mut Option<Durable<MemDisk>>,
    limit: &str,
    came: &mut String,
) -> Result<(), WordsFault> {
    let limit = read_size(limit)?;
    let Disks { left, right } = disks.take(alloc);
    take(
        disks,
        server,
        Durable::create(alloc, left, right, limit),
        came,
    )
}

/// Opens the server of this limit on the two disks, and says what it keeps, or why there is none.
pub(crate) fn open(
    alloc: Global,
    disks: &mut Disks,
    server: &mut Option<Durable<MemDisk>>,
    limit: &str,
    came: &mut String,
) -> Result<(), WordsFault> {
    let limit = read_size(limit)?;
    let Disks { left, right } = disks.take(alloc);
    take(
        disks,
        server,
        Durable::open(alloc, left, right, limit),
        came,
    )
}

// Takes the server that was made or opened, or takes the disks back.
fn take(
    disks: &mut Disks,
    server: &mut Option<Durable<MemDisk>>,
    begun: Result<Durable<MemDisk>, (OpenFault, MemDisk, MemDisk)>,
    came: &mut String,
) -> Result<(), WordsFault> {
    match begun {
        Ok(begun) => {
            let told = look(&begun, came);
            *server = Some(begun);
            told
        }
        Err((fault, left, right)) => {
            *disks = Disks { left, right };
            tell_fault(fault, came)
        }
    }
}

fn tell_fault(fault: OpenFault, came: &mut String) -> Result<(), WordsFault> {
    match fault {
        OpenFault::Memory => Err(WordsFault::Memory),
        fault => tell(came, fault),
    }
}

/// The server gives its disks back.
pub(crate) fn give_back(
    disks: &mut Disks,
    server: &mut Option<Durable<MemDisk>>,
) -> Result<(), WordsFault> {
    let Some(server) = server.take() else {
        return Err(WordsFault::Unknown);
    };
    let (left, right) = server.into_disks();
    *disks = Disks { left, right };
    Ok(())
}
