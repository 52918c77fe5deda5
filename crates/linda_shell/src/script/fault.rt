//! Faults that end a script before its end.

use linda_shell_text::LineFault;
use thiserror::Error;

/// Why a script ended before its end.
#[derive(Clone, Copy, Debug, PartialEq, Eq, Error)]
pub enum ScriptFault {
    /// The script could not be read.
    #[error("io")]
    Read,
    /// What is printed could not be written.
    #[error("io")]
    Write,
    /// The script was read 4,294,967,295 times without its end.
    #[error("io")]
    Turns,
    /// Memory ran out before the first line.
    #[error("memory")]
    Memory,
    /// The line of this number, from 1, was not done.
    #[error("line {0}: {1}")]
    Line(u64, LineFault),
}
