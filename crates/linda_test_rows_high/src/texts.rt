//! Texts and bytes in rows.
//!
//! Bytes are written as a line as it is, with its line feed; as a string between quotes, as people
//! type it (`docs/COMMANDS.md`); or, after the word `bytes`, as hexadecimal digits.

use linda_test_script::{WordsFault, done, read_hex, string_at};
use std::alloc::{AllocError, Global};

/// Appends what the words say: a string between quotes, the bytes of hexadecimal digits after the
/// word `bytes`, or else a line as it is, with its line feed.
pub(crate) fn push_bytes(
    alloc: Global,
    bytes: &mut Vec<u8>,
    words: &str,
) -> Result<(), WordsFault> {
    if words.starts_with('"') {
        return push_string(alloc, bytes, words);
    }
    match words.strip_prefix("bytes ") {
        Some(digits) => done(bytes.extend_from_slice(&read_hex(alloc, digits)?)),
        None => done(push_line(bytes, words)),
    }
}

// Appends a string between quotes.
fn push_string(alloc: Global, bytes: &mut Vec<u8>, words: &str) -> Result<(), WordsFault> {
    let (text, _behind) = string_at(alloc, words, 0)?;
    Ok(bytes.extend_from_slice(text.as_bytes())?)
}

// Appends a line as it is.
fn push_line(bytes: &mut Vec<u8>, words: &str) -> Result<(), AllocError> {
    bytes.extend_from_slice(words.as_bytes())?;
    Ok(bytes.push(b'\n')?)
}

/// Writes what was printed, line by line.
pub(crate) fn tell_text(printed: &[u8], came: &mut String) -> Result<(), AllocError> {
    let text = std::str::from_utf8(printed).unwrap_or("no text");
    match text.strip_suffix("\n") {
        Some(lines) => {
            for line in lines.split('\n') {
                writeln!(came, "> {line}")?;
            }
            Ok(())
        }
        None if text.is_empty() => Ok(()),
        None => writeln!(came, "> ? no line feed behind {text}"),
    }
}
