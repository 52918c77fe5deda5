//! The files of the banks of a store that is served: whether each is still in its place.

use super::log::Log;
use super::store::{LEFT, RIGHT};
use linda_net::{CounterValues, Gauge, Notice, Watcher};
use std::alloc::{AllocError, Global};
use std::fs::{self, File, Files};
use std::io::{ErrorKind, Write};
use std::os::unix::fs::MetadataExt;
use std::time::Clock;

/// A way to look which file is at a path.
pub trait FileLookup {
    /// The device and the number of the file at the path, if there is one.
    ///
    /// # Errors
    ///
    /// Why it cannot be looked at.
    fn file_at(&self, path: &str) -> Result<(u64, u64), ErrorKind>;
}

/// The files of the system.
#[derive(Drop)]
pub struct SystemLookup<'a, F> {
    files: &'a F,
}

impl<'a, F: Files<File = File>> SystemLookup<'a, F> {
    /// Those that these files have.
    pub fn new(files: &'a F) -> SystemLookup<'a, F> {
        SystemLookup { files }
    }
}

impl<F: Files<File = File>> FileLookup for SystemLookup<'_, F> {
    fn file_at(&self, path: &str) -> Result<(u64, u64), ErrorKind> {
        match fs::metadata(self.files, path) {
            Ok(found) => Ok((found.dev(), found.ino())),
            Err(fault) => Err(fault.kind()),
        }
    }
}

/// A log, and the files of both banks.
#[derive(Drop)]
pub(super) struct FolderWatcher<'a, P: Drop, W: Write> {
    lookup: P,
    log: Log<'a, W>,
    left: WatchedBank,
    right: WatchedBank,
    is_removed: bool,
}

// The place of a bank's file, and the device and number of the file that was there at the start:
// nothing if it cannot be looked at, and then it is not looked at later.
#[derive(Drop)]
struct WatchedBank {
    path: String,
    file: Option<(u64, u64)>,
}

impl<'a, P: FileLookup + Drop, W: Write> FolderWatcher<'a, P, W> {
    /// It watches the store in a folder.
    ///
    /// # Errors
    ///
    /// `AllocError`: nothing was made.
    pub(super) fn new(
        lookup: P,
        alloc: Global,
        folder: &str,
        log: Log<'a, W>,
    ) -> Result<FolderWatcher<'a, P, W>, AllocError> {
        let left = format!(in alloc; "{folder}/{LEFT}")?;
        let right = format!(in alloc; "{folder}/{RIGHT}")?;
        let left = WatchedBank::new(&lookup, left);
        let right = WatchedBank::new(&lookup, right);
        Ok(FolderWatcher {
            lookup,
            log,
            left,
            right,
            is_removed: false,
        })
    }

    /// Its log.
    pub(super) fn log(&mut self) -> &mut Log<'a, W> {
        &mut self.log
    }

    /// Whether it was seen that the file of a bank is not in its place any more.
    pub(super) fn is_removed(&self) -> bool {
        self.is_removed
    }

    // The bank whose file is not in its place any more, if one is not.
    fn removed(&self) -> Option<&'static str> {
        if self.left.is_removed(&self.lookup) {
            return Some("left");
        }
        if self.right.is_removed(&self.lookup) {
            return Some("right");
        }
        None
    }
}

impl<P: FileLookup + Drop, W: Write> Watcher for FolderWatcher<'_, P, W> {
    fn tell<C: Clock>(&mut self, clock: &C, notice: Notice, gauge: &Gauge, tally: &CounterValues) {
        self.log.tell(clock, notice, gauge, tally);
    }

    fn is_kept<C: Clock>(&mut self, clock: &C) -> bool {
        if self.is_removed {
            return false;
        }
        let Some(bank) = self.removed() else {
            return true;
        };
        self.is_removed = true;
        self.log.tell_removed(clock, bank);
        false
    }
}

impl WatchedBank {
    // The file that is at this path now.
    fn new<P: FileLookup>(lookup: &P, path: String) -> WatchedBank {
        let file = lookup.file_at(path.as_str()).ok();
        WatchedBank { path, file }
    }

    // Whether there is no file at the path, or another one. If it cannot be looked at, there is.
    fn is_removed<P: FileLookup>(&self, lookup: &P) -> bool {
        let Some(file) = self.file else {
            return false;
        };
        match lookup.file_at(self.path.as_str()) {
            Ok(found) => file != found,
            Err(kind) => is_of_no_file(kind),
        }
    }
}

// Whether a fault says that there is no such file.
fn is_of_no_file(kind: ErrorKind) -> bool {
    match kind {
        ErrorKind::NotFound | ErrorKind::NotADirectory => true,
        _ => false,
    }
}
