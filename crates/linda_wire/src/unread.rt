//! The bytes of a stream that are not read yet, whatever they spell.

ghost use Rattle.std.specs.Prelude.{◌≡◌, ◌≤◌, ◌++◌, [], length, drop, OnOk, OnErr};

use std::alloc::{AllocError, Global};
use std::marker::Model;

/// The bytes that are not read yet. They come in pieces and are read from the front.
///
/// Appending and passing over take time that is linear in the bytes appended.
#[derive(Debug, Drop)]
pub(crate) struct Unread {
    bytes: Vec<u8>,
    // How many of the bytes were read.
    start: usize,
}

impl Model for Unread {
    ghost use Rattle.std.specs.Prelude.{List, ℕ, ◌≤◌, length, drop};

    ghost Value = { List ℕ };

    ghost view = { λ a. drop a.start a.bytes.items };

    ghost invariant = { λ a. a.start ≤ length a.bytes.items };
}

impl Unread {
    /// No bytes.
    pub(crate) fn new(alloc: Global) -> Unread
        ensures { result ≡ [] }
    {
        Unread {
            bytes: Vec::new(alloc),
            start: 0,
        }
    }

    /// Appends a piece; without memory for it nothing of it.
    pub(crate) fn append(&mut self, piece: &[u8]) -> Result<(), AllocError>
        ensures ok { OnOk result (self.new ≡ self.old ++ piece.now) }
        ensures err { OnErr result (self.new ≡ self.old) }
    {
        if self.start >= self.bytes.len() - self.start {
            self.forget_read();
        }
        self.bytes.extend_from_slice(piece)
    }

    /// How many they are.
    pub(crate) fn len(&self) -> usize
        ensures { result ≡ length self.now }
    {
        self.bytes.len() - self.start
    }

    /// All of them.
    pub(crate) fn as_slice(&self) -> &[u8]
        ensures { result.now ≡ self.now }
    {
        &self.bytes[self.start..]
    }

    /// Passes over the first of them, which are read.
    pub(crate) fn pass(&mut self, count: usize)
        requires { count ≤ length self.old }
        ensures { self.new ≡ drop count self.old }
    {
        self.start += count;
    }

    // Gives up the bytes that were read; those that were not move to the front.
    fn forget_read(&mut self)
        ensures { self.new ≡ self.old }
    {
        let unread = self.bytes.len() - self.start;
        self.bytes.rotate_left(self.start);
        self.bytes.truncate(unread);
        self.start = 0;
    }
}
