//! Strings between quotes: each character is written as itself or as an escape.
//!
//! A string is judged first, which takes no memory, and then read into room for as many bytes as it
//! says. Whether it says UTF-8 is judged by its bytes as they are: an escape is of ASCII and
//! represents a byte of ASCII, and each other byte represents itself.

ghost use Rattle.std.specs.Prelude.{◌<◌, false, length, IfOk, IsOk, IsErrOf};
ghost use Rattle.linda_text.specs.Reading.{content_at, short_at, said_at, escape_at, string_at};
ghost use Rattle.linda_text.specs.Reading.{made};
ghost use Rattle.linda_codec.specs.Steps.{left_by};
ghost use Rattle.linda_text.specs.Steps.{Gives, GivesAlways};

use crate::fault::TextFault;
use crate::marks::{
    BACKSLASH, CARRIAGE_RETURN, FEED_LETTER, LINE_FEED, QUOTE, RETURN_LETTER, TAB, TAB_LETTER,
};
use linda_tuple::{MAX_TEXT, Text};
use std::alloc::Global;

/// What the string says whose quote was opened, and the bytes after its closing quote.
pub(crate) fn read_string(alloc: Global, bytes: &[u8]) -> Result<(Text, &[u8]), TextFault>
    ensures value { Gives (λ x. (x.0, x.1.now)) result (string_at bytes.now) }
    ensures memory { IsErrOf result TextFault.Memory → IsOk (string_at bytes.now) }
{
    let (count, _) = judge(bytes)?;
    let (said, rest) = read_content(alloc, bytes, count)?;
    let Ok(string) = String::from_utf8(said) else {
        unreachable!();
    };
    Ok((Text::new(string), rest))
}

/// The bytes after the closing quote of the string whose quote was opened.
pub(crate) fn skip_string(bytes: &[u8]) -> Result<&[u8], TextFault>
    ensures { GivesAlways (λ rest. rest.now) result (left_by (string_at bytes.now)) }
{
    let (_, rest) = judge(bytes)?;
    Ok(rest)
}

// How many bytes the string says, and those after its closing quote; or what is wrong with it.
fn judge(bytes: &[u8]) -> Result<(usize, &[u8]), TextFault>
    ensures { GivesAlways (λ x. (x.0, x.1.now)) result (made length (string_at bytes.now)) }
{
    let (count, rest) = measure(bytes)?;
    match std::str::from_utf8(&bytes[..bytes.len() - rest.len()]) {
        Ok(_) => Ok((count, rest)),
        Err(_) => Err(TextFault::SyntaxAt(rest.len())),
    }
}

// How many bytes the string says, of UTF-8 or not, and those after its closing quote.
fn measure(bytes: &[u8]) -> Result<(usize, &[u8]), TextFault>
    ensures value { GivesAlways (λ x. (x.0, x.1.now)) result (made length (short_at bytes.now)) }
    ensures shorter { IfOk result (λ x. length x.1.now < length bytes.now) }
{
    let mut count: usize = 0;
    let mut rest = bytes;
    loop {
        let (said, after) = read_said(rest)?;
        if said.is_none() {
            return Ok((count, after));
        }
        if count == MAX_TEXT {
            skip_content(after)?;
            return Err(TextFault::TextTooLong);
        }
        count += 1;
        rest = after;
    }
}

// What the string says, read into room for so many bytes, and the bytes after its closing quote.
fn read_content(alloc: Global, bytes: &[u8], count: usize) -> Result<(Vec<u8>, &[u8]), TextFault>
    ensures { Gives (λ x. (x.0.items, x.1.now)) result (content_at false bytes.now) }
{
    let mut content = Vec::with_capacity(alloc, count)?;
    let mut rest = bytes;
    loop {
        let (said, after) = read_said(rest)?;
        let Some(byte) = said else {
            return Ok((content, after));
        };
        content.push(byte)?;
        rest = after;
    }
}

// The bytes after the closing quote, however much the string says before it.
fn skip_content(bytes: &[u8]) -> Result<&[u8], TextFault>
    ensures { GivesAlways (λ rest. rest.now) result (left_by (content_at false bytes.now)) }
{
    let mut rest = bytes;
    loop {
        let (said, after) = read_said(rest)?;
        if said.is_none() {
            return Ok(after);
        }
        rest = after;
    }
}

// The next byte that the string says, or none at its closing quote.
#[tactic(auto, unfolding(crate::specs::Reading::said_at, crate::specs::Reading::escape_at))]
fn read_said(bytes: &[u8]) -> Result<(Option<u8>, &[u8]), TextFault>
    ensures value { GivesAlways (λ x. (x.0, x.1.now)) result (said_at bytes.now) }
    ensures shorter { IfOk result (λ x. length x.1.now < length bytes.now) }
{
    match bytes {
        [] => Err(TextFault::SyntaxAt(0)),
        [QUOTE, rest @ ..] => Ok((None, rest)),
        [BACKSLASH, rest @ ..] => read_escape(rest),
        [LINE_FEED | CARRIAGE_RETURN, ..] => Err(TextFault::SyntaxAt(bytes.len())),
        [byte, rest @ ..] => Ok((Some(*byte), rest)),
    }
}

// What is after a backslash.
#[tactic(auto, unfolding(crate::specs::Reading::escape_at))]
fn read_escape(bytes: &[u8]) -> Result<(Option<u8>, &[u8]), TextFault>
    ensures value { GivesAlways (λ x. (x.0, x.1.now)) result (escape_at bytes.now) }
    ensures shorter { IfOk result (λ x. length x.1.now < length bytes.now) }
{
    match bytes {
        [] => Err(TextFault::SyntaxAt(0)),
        [QUOTE, rest @ ..] => Ok((Some(QUOTE), rest)),
        [BACKSLASH, rest @ ..] => Ok((Some(BACKSLASH), rest)),
        [FEED_LETTER, rest @ ..] => Ok((Some(LINE_FEED), rest)),
        [TAB_LETTER, rest @ ..] => Ok((Some(TAB), rest)),
        [RETURN_LETTER, rest @ ..] => Ok((Some(CARRIAGE_RETURN), rest)),
        [_, ..] => Err(TextFault::SyntaxAt(bytes.len())),
    }
}
