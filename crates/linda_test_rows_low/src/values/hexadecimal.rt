//! Bytes in rows, as hexadecimal digits.

use linda_test_script::{WordsFault, done};
use std::alloc::{AllocError, Global};

/// Appends a line that gives the bytes that were made.
///
/// # Errors
///
/// Why none were made; `Memory` if memory runs out.
pub(crate) fn tell_made(
    alloc: Global,
    came: &mut String,
    made: Result<Vec<u8>, WordsFault>,
) -> Result<(), WordsFault> {
    let bytes = made?;
    done(tell_bytes(alloc, came, &bytes))
}

/// Appends a line that gives the bytes.
///
/// # Errors
///
/// `AllocError` if memory runs out.
pub(crate) fn tell_bytes(alloc: Global, came: &mut String, bytes: &[u8]) -> Result<(), AllocError> {
    push_digits(alloc, came, "> ", bytes)
}

/// Appends what is before the bytes, their digits, and the end of the line.
///
/// # Errors
///
/// `AllocError` if memory runs out; a part of them may then be there.
pub(crate) fn push_digits(
    alloc: Global,
    came: &mut String,
    front: &str,
    bytes: &[u8],
) -> Result<(), AllocError> {
    let digits = hex::encode(alloc, bytes)?;
    writeln!(came, "{front}{digits}")
}
