//! The device calls that a disk in memory keeps a record of.

use std::marker::Model;

/// The bytes of a write. Contracts see the list of them.
#[derive(Drop)]
pub(crate) struct Bytes {
    bytes: Vec<u8>,
}

impl Model for Bytes {
    ghost use Rattle.std.specs.Prelude.{List, ℕ};

    ghost Value = { List ℕ };

    ghost view = { λ b. b.bytes.items };
}

impl Bytes {
    ghost use Rattle.std.specs.Prelude.{◌≡◌};

    /// These bytes.
    pub(crate) fn new(bytes: Vec<u8>) -> Bytes
        ensures { result ≡ bytes.items }
    {
        Bytes { bytes }
    }

    /// The bytes.
    pub(crate) fn as_slice(&self) -> &[u8]
        ensures { result.now ≡ self.now }
    {
        &self.bytes
    }
}

/// A device call that was done.
#[derive(Drop)]
pub(crate) enum DeviceCall {
    /// These bytes were written at this offset.
    Write(usize, Bytes),
    /// The file was cut to this length.
    Cut(usize),
    /// All that was written was made durable.
    Sync,
}
