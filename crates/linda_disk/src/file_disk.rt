//! A disk that is a file of the operating system.

use crate::disk::Disk;
use crate::fault::DiskFault;
use crate::file_state::{FRONT, FileState};
use crate::file_trouble::{FileCall, FileTrouble};
use crate::turn::one_more;
use std::alloc::Global;
use std::fs::File;
use std::io;
use std::io::ErrorKind;
use std::os::unix::fs::FileExt;

/// A file of the operating system as a disk. It syncs the file and reads it when it is made. Until
/// the first write or cut, reads are answered from what it keeps of that; then only its length and
/// its first byte are known. What contracts say of it is the record of its own calls: see the
/// README for what stays to be trusted.
#[derive(Drop)]
pub struct FileDisk {
    file: File,
    failures: u64,
    // The first failure of a call of the system since the last sync that was done.
    trouble: Option<FileTrouble>,
    known: FileState,
}

impl FileDisk {
    ghost use Rattle.std.specs.Prelude.{◌≡◌, ◌+◌, ◌<◌, [], IfOk};
    ghost use Rattle.linda_disk.specs.View.{IsDurable};
    ghost use Rattle.linda_disk.specs.FileDisk as disk;

    /// The file as a disk, which keeps all bytes until they are read to the end of the file: from
    /// then on a front of 4,096 bytes. It is to be open for reading and writing, and not for
    /// appending, and nobody else writes to it.
    ///
    /// # Errors
    ///
    /// `Device` if it cannot be synced, measured or read; `Memory`.
    pub fn new(alloc: Global, file: File) -> Result<FileDisk, DiskFault>
        ensures calls { IfOk result (λ d. (disk.history d).calls ≡ []) }
        ensures durable { IfOk result (λ d. IsDurable (disk.view d)) }
        ensures failures { IfOk result (λ d. disk.failures d ≡ 0) }
    {
        FileDisk::made(alloc, file, usize::MAX)
    }

    /// The file as a disk of which no more than a front of 4,096 bytes is to be read, and no more
    /// is kept. All of it is synced and read as by `new`, which takes 64 KiB of memory for a while.
    ///
    /// # Errors
    ///
    /// As those of `new`.
    pub fn with_front(alloc: Global, file: File) -> Result<FileDisk, DiskFault>
        ensures calls { IfOk result (λ d. (disk.history d).calls ≡ []) }
        ensures durable { IfOk result (λ d. IsDurable (disk.view d)) }
        ensures failures { IfOk result (λ d. disk.failures d ≡ 0) }
    {
        FileDisk::made(alloc, file, FRONT)
    }

    // The file as a disk that keeps so many bytes of its front, at most.
    fn made(alloc: Global, file: File, most: usize) -> Result<FileDisk, DiskFault>
        requires { 0 < most }
        ensures calls { IfOk result (λ d. (disk.history d).calls ≡ []) }
        ensures failures { IfOk result (λ d. disk.failures d ≡ 0) }
    {
        let known = FileState::read_file(alloc, &file, most)?;
        Ok(FileDisk {
            file,
            failures: 0,
            trouble: None,
            known,
        })
    }

    /// How often the device has failed.
    pub fn failures(&self) -> u64
        ensures { result ≡ disk.failures self.now }
    {
        self.failures
    }

    /// The first call that failed since the last sync that was done, with its error; `None` if none
    /// has.
    pub fn trouble(&self) -> Option<FileTrouble> {
        self.trouble
    }

    /// Counts a failure of the device, keeps it if there is none, and reports it.
    fn failed(&mut self, call: FileCall, error: io::Error) -> DiskFault
        ensures device { result ≡ DiskFault.Device
            → disk.failures self.new ≡ disk.failures self.old + 1 }
        ensures memory { result ≡ DiskFault.Memory
            → disk.failures self.new ≡ disk.failures self.old }
        ensures same { disk.history self.new ≡ disk.history self.old }
    {
        match one_more(self.failures) {
            Ok(failures) => {
                self.failures = failures;
                if self.trouble.is_none() {
                    self.trouble = Some(FileTrouble { call, error });
                }
                DiskFault::Device
            }
            Err(fault) => fault,
        }
    }
}

impl Disk for FileDisk {
    ghost use Rattle.std.specs.Prelude.{◌≡◌, ◌+◌, ◌≤◌, length, take, drop, OnOk};
    ghost use Rattle.linda_disk.specs.Disk.{Writes, Cuts, Syncs, CountsFailure};
    ghost use Rattle.linda_disk.specs.FileDisk as disk;
    ghost use Rattle.linda_disk.specs.DiskHistoryLaws as laws;

    ghost honest = { λ _. Unit {0} };

    ghost view = { disk.view };

    ghost failures = { disk.failures };

    fn len(&mut self) -> Result<usize, DiskFault> {
        Ok(self.known.len())
    }

    fn read_at(&mut self, at: usize, buffer: &mut [u8]) -> Result<(), DiskFault>
        requires { at + length buffer.old ≤ length (disk.view self.old).seen }
        ensures bytes { OnOk result
            (buffer.new ≡ take (length buffer.old) (drop at (disk.view self.old).seen)) }
        ensures same { disk.history self.new ≡ disk.history self.old }
        ensures cause { CountsFailure result (disk.failures self.old) (disk.failures self.new) }
    {
        if self.known.read(at, buffer) {
            return Ok(());
        }
        Err(self.failed(FileCall::Read, io::Error::from(ErrorKind::Unsupported)))
    }

    fn write_at(&mut self, at: usize, bytes: &[u8]) -> Result<(), DiskFault>
        requires { at ≤ length (disk.view self.old).seen }
        ensures writes { Writes at bytes.now result (disk.view self.old) (disk.view self.new) }
        ensures cause { CountsFailure result (disk.failures self.old) (disk.failures self.new) }
    {
        self.known.write(at, bytes)?;
        match self.file.write_all_at(bytes, at as u64) {
            Ok(()) => Ok(()),
            Err(error) => Err(self.failed(FileCall::Write, error)),
        }
    }

    fn cut(&mut self, len: usize) -> Result<(), DiskFault>
        ensures cuts { Cuts len result (disk.view self.old) (disk.view self.new) }
        ensures cause { CountsFailure result (disk.failures self.old) (disk.failures self.new) }
    {
        self.known.cut(len);
        match self.file.set_len(len as u64) {
            Ok(()) => Ok(()),
            Err(error) => Err(self.failed(FileCall::Cut, error)),
        }
    }

    fn sync(&mut self) -> Result<(), DiskFault>
        ensures syncs { Syncs result (disk.view self.old) (disk.view self.new) }
        ensures cause { CountsFailure result (disk.failures self.old) (disk.failures self.new) }
    {
        match self.file.sync_data() {
            Ok(()) => {
                self.known.sync();
                self.trouble = None;
                Ok(())
            }
            Err(error) => Err(self.failed(FileCall::Sync, error)),
        }
    }

    ghost timed = { λ d _. laws.timed (disk.history d) d.known.begun };
}
