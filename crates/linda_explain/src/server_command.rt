//! Commands of servers in a script: the part of one that is wrong.

use crate::numbers::{BLANK, END, Wrong, skip_byte, skip_u64};
use linda_shell_text::behind_word;

/// What is wrong with the command of servers that begins so; `None` if the text begins with no word
/// of one.
pub(crate) fn wrong_part(text: &[u8]) -> Option<Wrong<'_>> {
    match parts(text)? {
        Ok(rest) => Some(Wrong::Expected(rest, END)),
        Err(wrong) => Some(wrong),
    }
}

// What is after all parts of a command, or which one is wrong.
fn parts(text: &[u8]) -> Option<Result<&[u8], Wrong<'_>>> {
    for word in [
        b"tick".as_slice(),
        b"snapshot".as_slice(),
        b"state".as_slice(),
    ] {
        if let Some(rest) = behind_word(text, word) {
            return Some(skip_u64(rest, "a number", END));
        }
    }
    if let Some(rest) = behind_word(text, b"stop") {
        return Some(parts_of_stop(rest));
    }
    match behind_word(text, b"repeat") {
        Some(rest) => Some(Ok(rest)),
        None => None,
    }
}

// What is after a server's number, and after the call and the byte that may follow.
fn parts_of_stop(text: &[u8]) -> Result<&[u8], Wrong<'_>> {
    let rest = skip_u64(text, "a number", BLANK)?;
    let rest = skip_u64(rest, "a number or the end of the line", BLANK)?;
    skip_byte(rest)
}
