//! A reader and a writer that give and take a little at a time, and fail.

use std::io;
use std::io::{Read, Write};

/// Gives its bytes in pieces of at most so many, and then ends or fails.
#[derive(Drop)]
pub(crate) struct Pieces<'a> {
    pub(crate) bytes: &'a [u8],
    pub(crate) size: usize,
    pub(crate) fails: bool,
}

impl Read for Pieces<'_> {
    fn read(&mut self, buf: &mut [u8]) -> io::Result<usize> {
        let count = self.size.min(self.bytes.len()).min(buf.len());
        if count == 0 && self.fails {
            return Err(io::Error::other("cut off"));
        }
        buf[..count].copy_from_slice(&self.bytes[..count]);
        self.bytes = &self.bytes[count..];
        Ok(count)
    }
}

/// Takes so many bytes, at most 5 at once, and then fails.
#[derive(Drop)]
pub(crate) struct Room {
    pub(crate) taken: Vec<u8>,
    pub(crate) room: usize,
}

impl Write for Room {
    fn write(&mut self, buf: &[u8]) -> io::Result<usize> {
        let count = self.room.min(buf.len()).min(5);
        if count == 0 && !buf.is_empty() {
            return Err(io::Error::other("no room"));
        }
        self.taken.extend_from_slice(&buf[..count])?;
        self.room -= count;
        Ok(count)
    }

    fn flush(&mut self) -> io::Result<()> {
        Ok(())
    }
}
