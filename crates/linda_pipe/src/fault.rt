//! Faults that end the pipe.

ghost use Rattle.std.specs.Prelude.{◌≡◌};
ghost use Rattle.linda_pipe.specs.Statuses.{status_of};

use thiserror::Error;

/// The exit status if standard input or output fails, or memory runs out outside of a line.
pub const REFUSED: u8 = 3;

/// The exit status for a fault of a line.
pub const BAD_LINE: u8 = 4;

/// Why the pipe ended before its input did. The numbers are those of lines, from 1.
#[derive(Clone, Copy, Debug, PartialEq, Eq, Error)]
pub enum PipeFault {
    /// The line of this number is not hexadecimal. All lines before it were taken, and their
    /// replies written.
    #[error("line {0}: not hexadecimal")]
    NotHexadecimal(u64),
    /// Memory ran out at the line of this number. The replies to the lines before it were written.
    #[error("line {0}: memory")]
    Memory(u64),
    /// The input could not be read.
    #[error("io")]
    Read,
    /// The output could not be written: some first bytes of the reply lines were.
    #[error("io")]
    Write,
    /// The input was read 4,294,967,295 times, and it has not ended.
    #[error("io")]
    Turns,
}

impl PipeFault {
    /// The exit status of a program that ends so.
    pub fn status(self) -> u8
        ensures { result ≡ status_of self }
    {
        match self {
            PipeFault::NotHexadecimal(_) => BAD_LINE,
            PipeFault::Memory(_) => BAD_LINE,
            PipeFault::Read => REFUSED,
            PipeFault::Write => REFUSED,
            PipeFault::Turns => REFUSED,
        }
    }
}
