//! Numbers in a command: what is wrong with one that cannot be read.

use linda_text::{TextFault, skip_blanks, split_number};

/// What is wrong in a line, and the rest of the line from there on.
#[derive(Clone, Copy)]
pub(crate) enum Wrong<'a> {
    /// Something else was expected there.
    Expected(&'a [u8], &'static str),
    /// What is there is too large.
    Beyond(&'a [u8], &'static str),
}

pub(crate) const END: &str = "the end of the line";

pub(crate) const BLANK: &str = "a blank";

/// What is after the client's number with which the text begins.
///
/// # Errors
///
/// What is wrong with the number.
pub(crate) fn skip_client(text: &[u8]) -> Result<&[u8], Wrong<'_>> {
    let most = u64::from(u32::MAX);
    let beyond = "a client's number of more than 32 bits";
    skip_number(text, most, "a client's number", beyond, BLANK)
}

/// What is after a number of 64 bits, and after blanks; `then` is what follows a number there.
///
/// # Errors
///
/// What is wrong with the number, which is named `wanted` if it is missing.
pub(crate) fn skip_u64<'a>(
    text: &'a [u8],
    wanted: &'static str,
    then: &'static str,
) -> Result<&'a [u8], Wrong<'a>> {
    skip_number(
        text,
        u64::MAX,
        wanted,
        "a number of more than 64 bits",
        then,
    )
}

/// What is after the number of a byte, and after blanks, if that is the last part of a line.
///
/// # Errors
///
/// What is wrong with the number.
pub(crate) fn skip_byte(text: &[u8]) -> Result<&[u8], Wrong<'_>> {
    let most = u64::from(u8::MAX);
    skip_number(text, most, "a byte, from 0 to 255", "a byte above 255", END)
}

// What is after a number up to `most`, and after blanks; or what is wrong with it: `wanted` names
// it, `beyond` says that it is too large, and `then` is what follows a number there.
fn skip_number<'a>(
    text: &'a [u8],
    most: u64,
    wanted: &'static str,
    beyond: &'static str,
    then: &'static str,
) -> Result<&'a [u8], Wrong<'a>> {
    match split_number(text) {
        Ok((number, rest)) => match rest {
            [first, ..] if first.is_ascii_alphanumeric() => Err(Wrong::Expected(rest, then)),
            _ => {
                if number > most {
                    return Err(Wrong::Beyond(text, beyond));
                }
                Ok(skip_blanks(rest))
            }
        },
        Err(TextFault::NumberRange) => Err(Wrong::Beyond(text, beyond)),
        Err(_) => Err(Wrong::Expected(text, wanted)),
    }
}
