//! Words and numbers at the front of a text.

use crate::fault::WordsFault;

/// The first word of a text and what is after the blank after it, which is nothing if no blank is
/// there.
pub fn split_word(text: &str) -> (&str, &str) {
    match text.split_once(' ') {
        Some((word, rest)) => (word, rest),
        None => (text, ""),
    }
}

/// The number of 64 bits that the text is.
///
/// # Errors
///
/// `Unknown` if it is none.
pub fn read_number(text: &str) -> Result<u64, WordsFault> {
    match text.parse::<u64>() {
        Ok(number) => Ok(number),
        Err(_) => Err(WordsFault::Unknown),
    }
}

/// The number of 32 bits that the text is, of a client or a server.
///
/// # Errors
///
/// `Unknown` if it is none.
pub fn read_small_number(text: &str) -> Result<u32, WordsFault> {
    match text.parse::<u32>() {
        Ok(number) => Ok(number),
        Err(_) => Err(WordsFault::Unknown),
    }
}

/// The length, the count or the place in a list that the text is.
///
/// # Errors
///
/// `Unknown` if it is none.
pub fn read_size(text: &str) -> Result<usize, WordsFault> {
    match text.parse::<usize>() {
        Ok(size) => Ok(size),
        Err(_) => Err(WordsFault::Unknown),
    }
}

/// The number of 64 bits that is the first word of a text, and what is after the blank after it.
///
/// # Errors
///
/// `Unknown` if there is no such number.
pub fn split_number(text: &str) -> Result<(u64, &str), WordsFault> {
    let (word, rest) = split_word(text);
    Ok((read_number(word)?, rest))
}

/// The number of 32 bits that is the first word, of a client or a server, and what is after the
/// blank after it.
///
/// # Errors
///
/// `Unknown` if there is no such number.
pub fn read_numbered(text: &str) -> Result<(u32, &str), WordsFault> {
    let (number, rest) = split_number(text)?;
    match u32::try_from(number) {
        Ok(number) => Ok((number, rest)),
        Err(_) => Err(WordsFault::Unknown),
    }
}
