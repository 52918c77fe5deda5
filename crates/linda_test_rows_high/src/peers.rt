//! A reader and a writer that give and take a little at a time, and fail.

use std::alloc::Global;
use std::cell::Cell;
use std::io;
use std::io::{ErrorKind, Read, Write};

/// Gives its bytes in pieces of at most so many, and then ends or fails. It also fails if it is
/// asked while something that was written is not flushed.
#[derive(Drop)]
pub(crate) struct Pieces<'a> {
    pub(crate) bytes: &'a [u8],
    pub(crate) size: usize,
    pub(crate) fails: bool,
    pub(crate) unflushed: &'a Cell<bool>,
    /// How many calls failed.
    pub(crate) failed: usize,
}

impl Read for Pieces<'_> {
    fn read(&mut self, buf: &mut [u8]) -> io::Result<usize> {
        if self.unflushed.get() || (self.fails && self.bytes.is_empty()) {
            self.failed = self.failed.saturating_add(1);
            return Err(io::Error::from(ErrorKind::ConnectionReset));
        }
        let count = self.size.min(self.bytes.len()).min(buf.len());
        buf[..count].copy_from_slice(&self.bytes[..count]);
        self.bytes = &self.bytes[count..];
        Ok(count)
    }
}

/// Takes at most so many bytes at once until its room is full, and then fails.
#[derive(Drop)]
pub(crate) struct Narrow<'a> {
    pub(crate) bytes: Vec<u8>,
    pub(crate) width: usize,
    pub(crate) room: usize,
    pub(crate) unflushed: &'a Cell<bool>,
    /// How many calls failed, and how many flushes there were after one that did.
    pub(crate) failed: usize,
}

impl Write for Narrow<'_> {
    fn write(&mut self, buf: &[u8]) -> io::Result<usize> {
        let len = self.bytes.len();
        if len >= self.room {
            self.failed = self.failed.saturating_add(1);
            return Err(io::Error::from(ErrorKind::StorageFull));
        }
        let count = buf.len().min(self.width).min(self.room - len);
        self.bytes.extend_from_slice(&buf[..count])?;
        self.unflushed.set(true);
        Ok(count)
    }

    fn flush(&mut self) -> io::Result<()> {
        if self.failed > 0 {
            self.failed = self.failed.saturating_add(1);
        }
        self.unflushed.set(false);
        Ok(())
    }
}

/// Takes all that it is given, and gives on what was written before the last flush.
#[derive(Drop)]
pub(crate) struct Buffered {
    bytes: Vec<u8>,
    flushed: usize,
}

impl Buffered {
    /// Nothing was written yet.
    pub(crate) fn new(alloc: Global) -> Buffered {
        Buffered {
            bytes: Vec::new(alloc),
            flushed: 0,
        }
    }

    /// What was flushed.
    pub(crate) fn flushed(&self) -> &[u8] {
        let bytes: &[u8] = &self.bytes;
        &bytes[..self.flushed.min(bytes.len())]
    }
}

impl Write for Buffered {
    fn write(&mut self, buf: &[u8]) -> io::Result<usize> {
        self.bytes.extend_from_slice(buf)?;
        Ok(buf.len())
    }

    fn flush(&mut self) -> io::Result<()> {
        self.flushed = self.bytes.len();
        Ok(())
    }
}
