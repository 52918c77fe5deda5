//! A reader that keeps the lines that it gave last.

use std::alloc::Global;
use std::io;
use std::io::Read;

/// Reads on, and keeps the bytes of the last read that gave some, with the line that they go on.
#[derive(Drop)]
pub struct RecentLinesReader<'a, R> {
    reader: &'a mut R,
    // The line that was begun before the last read, and what that gave.
    recent: Vec<u8>,
    // The number of the first line of these, from 1.
    first: u64,
    // How many bytes of these are of lines that ended, and how many such lines there are.
    ended: usize,
    lines: u64,
}

impl<'a, R: Read> RecentLinesReader<'a, R> {
    /// Nothing was read yet.
    pub fn new(alloc: Global, reader: &'a mut R) -> RecentLinesReader<'a, R> {
        RecentLinesReader {
            reader,
            recent: Vec::new(alloc),
            first: 1,
            ended: 0,
            lines: 0,
        }
    }

    /// The line of this number, from 1, without its line feed and carriage return, if it is one of
    /// those that are kept.
    pub fn line(&self, number: u64) -> Option<&[u8]> {
        let mut rest = self.recent.as_slice();
        let mut at = self.first;
        for _ in 0..self.recent.len().saturating_add(1) {
            let (line, later) = match rest.iter().position(|byte| *byte == b'\n') {
                Some(end) => (&rest[..end], &rest[end + 1..]),
                None => (rest, [].as_slice()),
            };
            if at == number {
                return Some(without_return(line));
            }
            at = at.saturating_add(1);
            rest = later;
        }
        None
    }

    // Keeps what was read, and lets go of the lines that ended before it: of a long line each byte
    // is looked at once. Without memory nothing is kept, and no line is found from then on.
    fn keep(&mut self, piece: &[u8]) {
        self.forget();
        let before = self.recent.len();
        if self.recent.extend_from_slice(piece).is_err() {
            self.recent.clear();
            self.first = u64::MAX;
            return;
        }
        for (at, byte) in piece.iter().enumerate() {
            if *byte == b'\n' {
                self.ended = before.saturating_add(at).saturating_add(1);
                self.lines = self.lines.saturating_add(1);
            }
        }
    }

    // Lets go of the lines that have ended.
    fn forget(&mut self) {
        if self.ended == 0 {
            return;
        }
        let left = self.recent.len() - self.ended.min(self.recent.len());
        for at in 0..left {
            self.recent[at] = self.recent[at + (self.recent.len() - left)];
        }
        self.recent.truncate(left);
        self.first = self.first.saturating_add(self.lines);
        self.ended = 0;
        self.lines = 0;
    }
}

impl<R: Read> Read for RecentLinesReader<'_, R> {
    fn read(&mut self, buf: &mut [u8]) -> io::Result<usize> {
        let count = self.reader.read(buf)?;
        if count > 0 {
            self.keep(&buf[..count]);
        }
        Ok(count)
    }
}

// A line without a carriage return at its end.
fn without_return(line: &[u8]) -> &[u8] {
    match line {
        [front @ .., b'\r'] => front,
        _ => line,
    }
}
