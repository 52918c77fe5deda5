//! Notation of texts in rows that would be long or could not be seen.
//!
//! In braces are bytes in hexadecimal digits, as `{0a}` for a line feed; or how often what is after
//! a blank is there, as `{255 a}`.

use linda_test_script::{WordsFault, done, read_hex};
use std::alloc::{AllocError, Global};
use std::str;

// How the first letters of all are written, which cannot be seen.
const CONTROLS: [&str; 32] = [
    "{00}", "{01}", "{02}", "{03}", "{04}", "{05}", "{06}", "{07}", "{08}", "{09}", "{0a}", "{0b}",
    "{0c}", "{0d}", "{0e}", "{0f}", "{10}", "{11}", "{12}", "{13}", "{14}", "{15}", "{16}", "{17}",
    "{18}", "{19}", "{1a}", "{1b}", "{1c}", "{1d}", "{1e}", "{1f}",
];

// From how many equal letters on they are counted.
const LONG: u64 = 20;

/// The text that is written so.
///
/// # Errors
///
/// `Unknown` if braces hold something else, or are not closed; `Memory` if memory runs out.
pub(crate) fn spread(alloc: Global, written: &str) -> Result<String, WordsFault> {
    match written.split_once('{') {
        Some((front, parts)) => spread_parts(alloc, front, parts),
        None => Ok(String::from_str(alloc, written)?),
    }
}

// The text that begins so, before all braces, and of which each part begins in braces.
fn spread_parts(alloc: Global, front: &str, parts: &str) -> Result<String, WordsFault> {
    let mut text = String::from_str(alloc, front)?;
    for part in parts.split('{') {
        push_part(alloc, &mut text, part)?;
    }
    Ok(text)
}

// Appends what is in braces, of which the first one is gone, and what is after them.
fn push_part(alloc: Global, text: &mut String, part: &str) -> Result<(), WordsFault> {
    let Some((inside, behind)) = part.split_once('}') else {
        return Err(WordsFault::Unknown);
    };
    push_inside(alloc, text, inside)?;
    done(text.push_str(behind))
}

fn push_inside(alloc: Global, text: &mut String, inside: &str) -> Result<(), WordsFault> {
    match inside.split_once(' ') {
        Some((count, repeated)) => push_times(text, count, repeated),
        None => push_bytes(alloc, text, inside),
    }
}

fn push_times(text: &mut String, count: &str, repeated: &str) -> Result<(), WordsFault> {
    let Ok(count) = count.parse::<u16>() else {
        return Err(WordsFault::Unknown);
    };
    for _ in 0..count {
        text.push_str(repeated)?;
    }
    Ok(())
}

fn push_bytes(alloc: Global, text: &mut String, digits: &str) -> Result<(), WordsFault> {
    let bytes = read_hex(alloc, digits)?;
    match str::from_utf8(&bytes) {
        Ok(letters) => done(text.push_str(letters)),
        Err(_) => Err(WordsFault::Unknown),
    }
}

/// Appends a line that gives a text.
///
/// # Errors
///
/// `AllocError` if memory runs out; a part of the line may then be there.
pub(crate) fn tell(came: &mut String, text: &str) -> Result<(), AllocError> {
    came.push_str("> ")?;
    push_written(came, text)?;
    came.push('\n')
}

/// Appends the text as it is written in rows.
///
/// # Errors
///
/// `AllocError` if memory runs out; a part of it may then be there.
pub(crate) fn push_written(came: &mut String, text: &str) -> Result<(), AllocError> {
    let mut last = ' ';
    let mut count = 0u64;
    for letter in text.chars() {
        if letter != last {
            push_run(came, last, count)?;
            last = letter;
            count = 0;
        }
        count = count.saturating_add(1);
    }
    push_run(came, last, count)
}

// Appends so many of a letter.
fn push_run(came: &mut String, letter: char, count: u64) -> Result<(), AllocError> {
    if count >= LONG {
        return write!(came, "{{{count} {letter}}}");
    }
    for _ in 0..count {
        push_letter(came, letter)?;
    }
    Ok(())
}

fn push_letter(came: &mut String, letter: char) -> Result<(), AllocError> {
    match CONTROLS.get(letter as usize) {
        Some(written) => came.push_str(written),
        None if letter == '\u{7f}' => came.push_str("{7f}"),
        None => came.push(letter),
    }
}
