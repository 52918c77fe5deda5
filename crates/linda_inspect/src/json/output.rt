//! Bytes to a writer.

ghost use Rattle.std.specs.Prelude.{OnOk};
ghost use Rattle.std.specs.Io.KnownBytes.{Appends};

use crate::fault::OutputFault;
use std::io::Write;

/// Writes these bytes.
///
/// # Errors
///
/// `Io`: some first bytes were written.
pub(super) fn write_bytes<W: Write>(writer: &mut W, bytes: &[u8]) -> Result<(), OutputFault>
    ensures { OnOk result (Appends (W.contents writer.old) (W.contents writer.new) bytes.now) }
{
    if writer.write_all(bytes).is_err() {
        return Err(OutputFault::Io);
    }
    Ok(())
}
