//! Failures of a file: which call of the system, and its error.

use std::io;

/// A call of the system on a file that is a disk.
#[derive(Clone, Copy, Debug, PartialEq, Eq)]
pub enum FileCall {
    /// Its length is asked for.
    Length,
    /// Bytes are read.
    Read,
    /// Bytes are written.
    Write,
    /// The file is cut.
    Cut,
    /// What was written is brought to the device.
    Sync,
}

impl FileCall {
    /// Its name, in one word: `length`, `read`, `write`, `cut`, `sync`.
    pub fn name(self) -> &'static str {
        match self {
            FileCall::Length => "length",
            FileCall::Read => "read",
            FileCall::Write => "write",
            FileCall::Cut => "cut",
            FileCall::Sync => "sync",
        }
    }
}

/// A call that failed, with the error of the system.
#[derive(Clone, Copy)]
pub struct FileTrouble {
    /// Which call it was.
    pub call: FileCall,
    /// What the system says of it.
    pub error: io::Error,
}
