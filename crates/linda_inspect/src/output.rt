//! Lines to a writer.

use crate::fault::OutputFault;
use std::io::Write;

/// Writes these lines.
///
/// # Errors
///
/// `Io`: some first bytes were written.
pub(crate) fn write_lines<W: Write>(writer: &mut W, lines: &str) -> Result<(), OutputFault> {
    if writer.write_all(lines.as_bytes()).is_err() {
        return Err(OutputFault::Io);
    }
    Ok(())
}
