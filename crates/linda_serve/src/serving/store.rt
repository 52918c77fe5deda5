//! The store in a folder.

ghost use Rattle.std.specs.Prelude.{◌≡◌, ◌^◌, false, IfOk, OnOk};

use super::fault::ServingFault;
use crate::bank_file::{check_apart, check_kind};
use linda_disk::FileDisk;
use linda_journal::{GATE_BYTES, Heading, MIN_BYTES, read_heading};
use linda_server::{Durable, MAX_LIMIT, OpenFault};
use linda_snap::choose;
use std::alloc::Global;
use std::fs::{File, Files, OpenOptions, TryLockError};
use std::io;
use std::os::unix::fs::FileExt;

/// The file of the left bank.
pub(crate) const LEFT: &str = "left.bank";

/// How much longer than the bank in use the other file may be at a start.
const SLACK: usize = 4_194_304;

/// In how many pieces at most it is lengthened: so many make a bank of the greatest length.
const PIECES: u32 = 256;

/// The file of the right bank.
pub(crate) const RIGHT: &str = "right.bank";

/// Opens the store in a folder, which nobody else has open. If both of its files are missing or
/// empty a new one is created. What it created is there after a power cut.
///
/// # Errors
///
/// `InUse`; `NoStore`, `Damaged`, `Disk` as the banks are, `Disk` also if one is no regular file or
/// both are one file; `Memory`. Files that were missing may be there.
pub fn open_store<R: Files<File = File>>(
    rt: &R,
    alloc: Global,
    folder: &str,
) -> Result<Durable<FileDisk>, ServingFault>
    ensures up { IfOk result (λ s. s.down ≡ false) }
    ensures limit { IfOk result (λ s. s.limit ≡ 2 ^ 30) }
{
    let files = BankFiles::open(rt, alloc, folder)?;
    let (server, _) = files.open_store(alloc)?;
    sync_folder(rt, folder)?;
    Ok(server)
}

/// The two files of a store, which are open, and locked until they are dropped and what was opened
/// on them is.
#[derive(Drop)]
pub(super) struct BankFiles {
    left: File,
    right: File,
}

/// What the files of a store say of its snapshots.
#[derive(Clone, Copy)]
pub(super) struct FoundBanks {
    /// How many bytes the bank in use took when it was new, if there was one.
    pub(super) base: Option<usize>,
    /// How many bytes there are of a snapshot that was cut off: the other file is no bank, and
    /// longer than a closed gate.
    pub(super) partial_bank: Option<u64>,
}

impl BankFiles {
    /// Opens the files of a store, which nobody else has open. Files that are missing are created.
    ///
    /// # Errors
    ///
    /// `InUse`; `Disk`, also if one is no regular file or both are one file; `Memory`. Files that
    /// were missing may be there.
    pub(super) fn open<R: Files<File = File>>(
        rt: &R,
        alloc: Global,
        folder: &str,
    ) -> Result<BankFiles, ServingFault> {
        let left = open_bank(rt, alloc, folder, LEFT)?;
        lock(&left)?;
        let right = open_bank(rt, alloc, folder, RIGHT)?;
        check_apart(left.metadata(), right.metadata())?;
        // Both are locked: what fences by the lock of a file fences no other file.
        lock(&right)?;
        Ok(BankFiles { left, right })
    }

    /// Opens the store in the files, as `open_store` does, and says what they say of its snapshots.
    /// It may be called again once what it opened was dropped.
    ///
    /// # Errors
    ///
    /// `NoStore`, `Damaged`, `Disk` as the banks are; `Memory`.
    pub(super) fn open_store(
        &self,
        alloc: Global,
    ) -> Result<(Durable<FileDisk>, FoundBanks), ServingFault>
        ensures up { IfOk result (λ o. o.0.down ≡ false) }
        ensures limit { IfOk result (λ o. o.0.limit ≡ 2 ^ 30) }
    {
        let side = self.side();
        let found = match side {
            Some(true) => found_in(&self.right, &self.left),
            Some(false) => found_in(&self.left, &self.right),
            None => FoundBanks {
                base: None,
                partial_bank: None,
            },
        };
        let left = as_disk(alloc, self.left.try_clone(), side == Some(false))?;
        let right = as_disk(alloc, self.right.try_clone(), side == Some(true))?;
        let server = create_or_open(alloc, left, right)?;
        Ok((server, found))
    }

    /// Cuts off what is after the bank on this side, which ends at this offset by a closed gate:
    /// what is left of records that were cut off, and of banks before.
    ///
    /// # Errors
    ///
    /// `Disk`: a device failed.
    pub(super) fn cut_behind(&self, is_right: bool, end: usize) -> Result<(), ServingFault> {
        if is_right {
            cut_rest(&self.right, end)
        } else {
            cut_rest(&self.left, end)
        }
    }

    // Whether the right file has the bank in use; nothing if neither has one.
    fn side(&self) -> Option<bool> {
        choose(heading_in(&self.left), heading_in(&self.right)).ok()
    }
}

// What a file with a bank in use, and the other one, say of snapshots.
fn found_in(used: &File, other: &File) -> FoundBanks {
    FoundBanks {
        base: base_in(used),
        partial_bank: partial_bank_len(other),
    }
}

// Cuts a file after the closed gate at this offset, and syncs it, if it is longer.
fn cut_rest(file: &File, end: usize) -> Result<(), ServingFault> {
    let Some(len) = end.checked_add(GATE_BYTES) else {
        return Ok(());
    };
    let Ok(found) = file.metadata() else {
        return Err(ServingFault::Disk);
    };
    if found.len() <= len as u64 {
        return Ok(());
    }
    if file.set_len(len as u64).is_err() || file.sync_all().is_err() {
        return Err(ServingFault::Disk);
    }
    Ok(())
}

// The first bytes of an open file, as many as each bank has before its snapshot; nothing if it is
// shorter or cannot be read.
fn read_bank_header(file: &File) -> Option<[u8; MIN_BYTES]> {
    let mut front = [0; MIN_BYTES];
    match file.read_exact_at(&mut front, 0) {
        Ok(()) => Some(front),
        Err(_) => None,
    }
}

// How many bytes the bank in an open file took when it was new: its first ones and its snapshot,
// whose length they say last.
fn base_in(file: &File) -> Option<usize> {
    let front = read_bank_header(file)?;
    Some(base_of(&front))
}

// How many bytes the bank took that begins so.
fn base_of(front: &[u8; MIN_BYTES]) -> usize {
    let [.., a, b, c, d] = *front;
    MIN_BYTES.saturating_add(u32::from_be_bytes([a, b, c, d]) as usize)
}

// What an open file begins with: no bank if it is shorter or cannot be read.
fn heading_in(file: &File) -> Heading {
    match read_bank_header(file) {
        Some(front) => read_heading(&front),
        None => Heading::NoBank,
    }
}

// How many bytes an open file has, if it is no bank, and is longer than a closed gate.
fn partial_bank_len(file: &File) -> Option<u64> {
    if heading_in(file) != Heading::NoBank {
        return None;
    }
    match file.metadata() {
        Ok(found) if found.len() > GATE_BYTES as u64 => Some(found.len()),
        Ok(_) => None,
        Err(_) => None,
    }
}

/// Gives back the room of a snapshot that was cut off, for records. The server stays up.
///
/// # Errors
///
/// `Disk`: a device failed.
pub(super) fn give_back(server: &mut Durable<FileDisk>) -> Result<(), ServingFault>
    ensures up { OnOk result (server.new.down ≡ false) }
    ensures limit { OnOk result (server.new.limit ≡ server.old.limit) }
{
    let _ = server.trim().is_err();
    if server.is_down() {
        return Err(ServingFault::Disk);
    }
    Ok(())
}

/// Has the file of the other disk as many bytes as the bank in use has, as far as the device has
/// room: so the next snapshot finds room there. It is cut if it has 4 MiB more. The server stays
/// up.
///
/// # Errors
///
/// `Disk`: a device failed.
pub(super) fn fit_other(alloc: Global, server: &mut Durable<FileDisk>) -> Result<(), ServingFault>
    ensures up { OnOk result (server.new.down ≡ false) }
{
    let used = server.used().saturating_add(GATE_BYTES);
    let mut before = 0;
    for _ in 0..PIECES {
        match server.reserve(alloc, used, used.saturating_add(SLACK)) {
            Ok(len) if before < len && len < used => before = len,
            _ => break,
        }
    }
    if server.is_down() {
        return Err(ServingFault::Disk);
    }
    Ok(())
}

// The file of a bank as a disk. All of it is kept until it is read if the bank is in use, else no
// more than its front.
fn as_disk(
    alloc: Global,
    file: io::Result<File>,
    is_in_use: bool,
) -> Result<FileDisk, ServingFault> {
    let Ok(file) = file else {
        return Err(ServingFault::Disk);
    };
    if is_in_use {
        Ok(FileDisk::new(alloc, file)?)
    } else {
        Ok(FileDisk::with_front(alloc, file)?)
    }
}

// Creates a store if both banks are empty, and opens it if one is not.
fn create_or_open(
    alloc: Global,
    left: FileDisk,
    right: FileDisk,
) -> Result<Durable<FileDisk>, OpenFault>
    ensures up { IfOk result (λ s. s.down ≡ false) }
    ensures limit { IfOk result (λ s. s.limit ≡ 2 ^ 30) }
{
    match Durable::create(alloc, left, right, MAX_LIMIT) {
        Ok(server) => Ok(server),
        Err((OpenFault::NotEmpty, left, right)) => open(alloc, left, right),
        Err((fault, _, _)) => Err(fault),
    }
}

// Opens a store.
fn open(alloc: Global, left: FileDisk, right: FileDisk) -> Result<Durable<FileDisk>, OpenFault>
    ensures up { IfOk result (λ s. s.down ≡ false) }
    ensures limit { IfOk result (λ s. s.limit ≡ 2 ^ 30) }
{
    match Durable::open(alloc, left, right, MAX_LIMIT) {
        Ok(server) => Ok(server),
        Err((fault, _, _)) => Err(fault),
    }
}

// The file of a bank, which is created if it is missing.
fn open_bank<R: Files<File = File>>(
    rt: &R,
    alloc: Global,
    folder: &str,
    name: &str,
) -> Result<File, ServingFault> {
    let path = format!(in alloc; "{folder}/{name}")?;
    check_kind(rt, path.as_str())?;
    let opened = OpenOptions::new()
        .read(true)
        .write(true)
        .create(true)
        .open(rt, path.as_str());
    match opened {
        Ok(file) => Ok(file),
        Err(_) => Err(ServingFault::Disk),
    }
}

// Nobody else has this file until it is closed.
fn lock(file: &File) -> Result<(), ServingFault> {
    match file.try_lock() {
        Ok(()) => Ok(()),
        Err(TryLockError::WouldBlock) => Err(ServingFault::InUse),
        Err(TryLockError::Error(_)) => Err(ServingFault::Disk),
    }
}

/// The names of the files in the folder are there after a power cut.
///
/// # Errors
///
/// `Disk`: it cannot be synced.
pub(super) fn sync_folder<R: Files<File = File>>(rt: &R, folder: &str) -> Result<(), ServingFault> {
    let Ok(opened) = File::open(rt, folder) else {
        return Err(ServingFault::Disk);
    };
    match opened.sync_all() {
        Ok(()) => Ok(()),
        Err(_) => Err(ServingFault::Disk),
    }
}
