//! Disk of a server in a run: a disk in memory, which comes out of a crash as any mix of what was
//! written to it since the last sync.

ghost use Rattle.linda_disk.specs.DiskHistoryLaws as laws;
ghost use Rattle.linda_disk.specs.MemDisk as disk;

use linda_disk::{Disk, DiskFault, MemDisk, Torn};
use linda_test_runs::Dice;
use std::alloc::{AllocError, Global};

/// How many changes and bytes are noted without memory.
const MOST_CHANGES: usize = 1_024;

const MOST_BYTES: usize = 262_144;

/// What was done to a disk since the last sync, though it may have failed.
#[derive(Clone, Copy)]
enum Change {
    /// So many bytes were written at this offset: those from this place of the notes on.
    Write { at: usize, from: usize, len: usize },
    /// The file was cut to this length.
    Cut { len: usize },
}

/// What was done to a disk since the last sync, in order.
#[derive(Drop)]
struct Changes {
    list: Vec<Change>,
    bytes: Vec<u8>,
    // Something could not be noted.
    is_lost: bool,
}

impl Changes {
    fn new(alloc: Global) -> Result<Changes, AllocError> {
        Ok(Changes {
            list: Vec::with_capacity(alloc, MOST_CHANGES)?,
            bytes: Vec::with_capacity(alloc, MOST_BYTES)?,
            is_lost: false,
        })
    }

    fn note_write(&mut self, at: usize, bytes: &[u8]) {
        let from = self.bytes.len();
        let len = bytes.len();
        let is_noted = self.bytes.extend_from_slice(bytes).is_ok();
        self.note(Change::Write { at, from, len });
        self.is_lost = self.is_lost || !is_noted;
    }

    fn note(&mut self, change: Change) {
        let is_noted = self.list.push(change).is_ok();
        self.is_lost = self.is_lost || !is_noted;
    }

    fn clear(&mut self) {
        self.list.clear();
        self.bytes.clear();
    }

    // Leaves of each, in order, what the dice have of it. The image is the one of before.
    fn leave(&self, image: &mut Vec<u8>, dice: &mut Dice) -> Result<(), AllocError> {
        let bytes: &[u8] = &self.bytes;
        for change in self.list.iter() {
            leave_change(image, *change, bytes, dice)?;
        }
        Ok(())
    }
}

/// A disk in memory that notes what was done since the last sync.
pub struct TornDisk {
    alloc: Global,
    disk: MemDisk,
    changes: Changes,
}

impl Drop for TornDisk {
    fn drop(self) {
        let TornDisk {
            alloc: _,
            disk: _,
            changes: _,
        } = self;
    }
}

impl TornDisk {
    /// An empty disk.
    pub fn new(alloc: Global) -> Result<TornDisk, AllocError> {
        Ok(TornDisk {
            alloc,
            disk: MemDisk::new(alloc),
            changes: Changes::new(alloc)?,
        })
    }

    /// Lets so many writes, cuts and syncs pass, and then stops inside the next one.
    pub fn fuse(&mut self, passes: u64) {
        self.disk.fuse(passes);
    }

    /// Lets the call of this number, from 0, fail.
    pub fn fail_once(&mut self, number: u64) {
        self.disk.fail_once(number);
    }

    /// The machine stops and starts again. All is there as it was read, or as at the last sync, or
    /// with one byte in all that was written since; or each write and each cut is kept, lost or
    /// torn by itself, as the dice have it. Returns how many of these were.
    ///
    /// # Errors
    ///
    /// `AllocError`: the disk is not as it has to be.
    pub fn crash(&mut self, dice: &mut Dice) -> Result<u64, AllocError> {
        if self.changes.is_lost {
            return Err(AllocError);
        }
        match dice.below(8) {
            0 => self.turn_out(Torn::Kept)?,
            1 => self.turn_out(Torn::Lost)?,
            2 => self.turn_out(Torn::Filled(0))?,
            3 => self.turn_out(Torn::Filled(byte_of(dice)))?,
            _ => return self.mix(dice),
        }
        Ok(0)
    }

    fn turn_out(&mut self, torn: Torn) -> Result<(), AllocError> {
        self.changes.clear();
        match self.disk.crash(torn) {
            Ok(()) => Ok(()),
            Err(_) => Err(AllocError),
        }
    }

    // Each change since the last sync is kept, lost or torn by itself.
    fn mix(&mut self, dice: &mut Dice) -> Result<u64, AllocError> {
        if self.disk.crash(Torn::Lost).is_err() {
            return Err(AllocError);
        }
        let mut image = Vec::from_slice(self.alloc, self.disk.bytes())?;
        let count = self.changes.list.len() as u64;
        self.changes.leave(&mut image, dice)?;
        self.changes.clear();
        match MemDisk::from_bytes(self.alloc, image) {
            Ok(disk) => {
                self.disk = disk;
                Ok(count)
            }
            Err(_) => Err(AllocError),
        }
    }
}

// Some byte.
fn byte_of(dice: &mut Dice) -> u8 {
    u8::try_from(dice.below(256)).unwrap_or(1)
}

// Leaves of a change what the dice have of it. A write is of these bytes.
fn leave_change(
    image: &mut Vec<u8>,
    change: Change,
    bytes: &[u8],
    dice: &mut Dice,
) -> Result<(), AllocError> {
    match change {
        Change::Write { at, from, len } => {
            let end = from.saturating_add(len).min(bytes.len());
            leave_write(image, at, &bytes[from.min(end)..end], dice)
        }
        Change::Cut { len } => {
            leave_cut(image, len, dice);
            Ok(())
        }
    }
}

// A write is there whole, or not, or a piece of it from its front or to its end is.
fn leave_write(
    image: &mut Vec<u8>,
    at: usize,
    bytes: &[u8],
    dice: &mut Dice,
) -> Result<(), AllocError> {
    let few = u32::try_from(bytes.len()).unwrap_or(u32::MAX);
    let cut = (dice.below(few.saturating_add(1)) as usize).min(bytes.len());
    match dice.below(4) {
        0 => write_over(image, at, bytes, 0),
        1 => Ok(()),
        2 => write_over(image, at, &bytes[..cut], 0),
        _ => {
            // What is before it may hold any bytes.
            let other = byte_of(dice);
            write_over(image, at.saturating_add(cut), &bytes[cut..], other)
        }
    }
}

// Writes the bytes at this offset, over what is there and past the end. If the end is before the
// offset, an earlier write is lost, and other bytes are where it was.
fn write_over(image: &mut Vec<u8>, at: usize, bytes: &[u8], other: u8) -> Result<(), AllocError> {
    for _ in image.len()..at {
        image.push(other)?;
    }
    let over = image.len().saturating_sub(at).min(bytes.len());
    let from = at.min(image.len());
    for (place, byte) in image.iter_mut().skip(from).zip(bytes.iter()) {
        *place = *byte;
    }
    image.extend_from_slice(&bytes[over..])
}

// A cut happened, or not, or took less.
fn leave_cut(image: &mut Vec<u8>, len: usize, dice: &mut Dice) {
    let more = image.len().saturating_sub(len);
    let few = u32::try_from(more).unwrap_or(u32::MAX);
    let kept = match dice.below(3) {
        0 => 0,
        1 => more,
        _ => dice.below(few.saturating_add(1)) as usize,
    };
    image.truncate(len.saturating_add(kept));
}

impl Disk for TornDisk {
    ghost honest = { λ _. Unit {0} };

    ghost view = { λ d. disk.view d.disk };

    ghost failures = { λ d. disk.failures d.disk };

    fn len(&mut self) -> Result<usize, DiskFault> {
        self.disk.len()
    }

    fn read_at(&mut self, at: usize, buffer: &mut [u8]) -> Result<(), DiskFault> {
        self.disk.read_at(at, buffer)
    }

    fn write_at(&mut self, at: usize, bytes: &[u8]) -> Result<(), DiskFault> {
        let result = self.disk.write_at(at, bytes);
        self.changes.note_write(at, bytes);
        result
    }

    fn cut(&mut self, len: usize) -> Result<(), DiskFault> {
        let result = self.disk.cut(len);
        self.changes.note(Change::Cut { len });
        result
    }

    fn sync(&mut self) -> Result<(), DiskFault> {
        let result = self.disk.sync();
        if result.is_ok() {
            self.changes.clear();
        }
        result
    }

    ghost timed = { λ d _. laws.timed d.disk.history d.disk.begun };
}
