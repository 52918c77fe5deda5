//! The line that explains a fault.

ghost use Rattle.std.specs.Prelude.{◌≤◌, ◌+◌, length};

use crate::expected::{push_expected, wrong_from};
use crate::numbers::{Wrong, skip_client};
use crate::reading::{Reading, ReadingKind, read};
use crate::server_command::wrong_part;
use linda_shell_text::behind_word;
use linda_text::skip_blanks;
use std::alloc::{AllocError, Global};

/// Whose lines these are.
#[derive(Clone, Copy)]
pub enum LineSource {
    /// Of one client: `out TUPLE`, `sync EVENT`, `leave`, `last`.
    OfCall,
    /// Of a script: the same after a client's number, and commands of servers.
    OfScript,
}

const OF_CALL: &str = "out, sync, leave or last";

const OF_CLIENT: &str = "out, sync, abandon or leave";

const OF_SCRIPT: &str = "a client's number, tick, snapshot, stop, repeat or state";

/// Says where the line of this number is no command, and what was expected there: `line 3, byte 5:
/// expected "(", found "'"`. Bytes count from 1.
///
/// # Errors
///
/// `AllocError` if memory runs out.
pub fn explain(
    alloc: Global,
    number: u64,
    line: &[u8],
    lines: LineSource,
) -> Result<String, AllocError> {
    let text = skip_blanks(line);
    match lines {
        LineSource::OfCall => explain_request(alloc, number, line, text, OF_CALL),
        LineSource::OfScript => explain_command(alloc, number, line, text),
    }
}

// Explains a command of a script: of a client after its number, or of servers.
fn explain_command(
    alloc: Global,
    number: u64,
    line: &[u8],
    text: &[u8],
) -> Result<String, AllocError> {
    match text {
        [first, ..] if first.is_ascii_digit() => match skip_client(text) {
            Ok(rest) => explain_request(alloc, number, line, rest, OF_CLIENT),
            Err(wrong) => explain_part(alloc, number, line, wrong),
        },
        _ => match wrong_part(text) {
            Some(wrong) => explain_part(alloc, number, line, wrong),
            None => placed(alloc, number, line, text, OF_SCRIPT),
        },
    }
}

// Explains what is wrong with a part of a command.
fn explain_part(
    alloc: Global,
    number: u64,
    line: &[u8],
    wrong: Wrong<'_>,
) -> Result<String, AllocError> {
    match wrong {
        Wrong::Expected(rest, wanted) => placed(alloc, number, line, rest, wanted),
        Wrong::Beyond(rest, what) => {
            let mut said = begun(alloc, number, line, rest)?;
            said.push_str(what)?;
            Ok(said)
        }
    }
}

// Explains what a client is asked for; `commands` are those that there are.
fn explain_request(
    alloc: Global,
    number: u64,
    line: &[u8],
    text: &[u8],
    commands: &str,
) -> Result<String, AllocError> {
    if let Some(rest) = behind_word(text, b"out") {
        return explain_text(alloc, number, line, rest, ReadingKind::Tuple);
    }
    if let Some(rest) = behind_word(text, b"sync") {
        return explain_text(alloc, number, line, rest, ReadingKind::Event);
    }
    for word in [
        b"leave".as_slice(),
        b"last".as_slice(),
        b"abandon".as_slice(),
    ] {
        if let Some(rest) = behind_word(text, word) {
            return placed(alloc, number, line, rest, "the end of the line");
        }
    }
    placed(alloc, number, line, text, commands)
}

// Explains what is to be a tuple or an event, and goes to the end of the line.
fn explain_text(
    alloc: Global,
    number: u64,
    line: &[u8],
    text: &[u8],
    kind: ReadingKind,
) -> Result<String, AllocError> {
    let whole = match std::str::from_utf8(text) {
        Ok(whole) => whole,
        Err(fault) => {
            let bad = text.get(fault.valid_up_to()..).unwrap_or(text);
            return placed(alloc, number, line, bad, "UTF-8");
        }
    };
    match read(alloc, kind, whole)? {
        Reading::Whole => placed(alloc, number, line, text, "a command"),
        Reading::Beyond(what) => {
            let mut said = begun(alloc, number, line, text)?;
            said.push_str(what)?;
            Ok(said)
        }
        Reading::At(at) => {
            let from = wrong_from(alloc, kind, whole, at)?;
            let Some((front, rest)) = whole.split_at_checked(from) else {
                return placed(alloc, number, line, text, "a command");
            };
            let mut said = begun(alloc, number, line, rest.as_bytes())?;
            said.push_str("expected ")?;
            push_expected(alloc, &mut said, kind, front, rest)?;
            push_found(alloc, &mut said, rest.as_bytes())?;
            Ok(said)
        }
    }
}

// Explains that something else was expected where this rest of the line begins.
fn placed(
    alloc: Global,
    number: u64,
    line: &[u8],
    rest: &[u8],
    wanted: &str,
) -> Result<String, AllocError> {
    let mut said = begun(alloc, number, line, rest)?;
    said.push_str("expected ")?;
    said.push_str(wanted)?;
    push_found(alloc, &mut said, rest)?;
    Ok(said)
}

// Begins with the place of this rest of the line.
fn begun(alloc: Global, number: u64, line: &[u8], rest: &[u8]) -> Result<String, AllocError> {
    let byte = byte_of(line, rest);
    format!(in alloc; "line {number}, byte {byte}: ")
}

// The byte, from 1, at which the rest of a line begins; one more than it has if nothing is left.
fn byte_of(line: &[u8], rest: &[u8]) -> usize
    ensures some { 1 ≤ result }
    ensures within { result ≤ length line.now + 1 }
{
    line.len().saturating_sub(rest.len()).saturating_add(1)
}

// The letters of a word that is shown as it was found.
const MOST_LETTERS: usize = 20;

// Appends what was found: a word, as far as it is short, else a character, or a byte that is of
// none.
fn push_found(alloc: Global, said: &mut String, rest: &[u8]) -> Result<(), AllocError> {
    said.push_str(", found ")?;
    if let Some(word) = word_of(rest) {
        return push_quoted(said, word);
    }
    if let Some(found) = character_of(rest) {
        said.push_str("\"")?;
        said.push(found)?;
        return said.push_str("\"");
    }
    match rest.first() {
        Some(byte) => said.push_str(format!(in alloc; "byte {byte}")?.as_str()),
        None => said.push_str("the end of the line"),
    }
}

fn push_quoted(said: &mut String, text: &str) -> Result<(), AllocError> {
    said.push_str("\"")?;
    said.push_str(text)?;
    said.push_str("\"")
}

// The letters with which these bytes begin, if there are some, and as many as are shown.
fn word_of(bytes: &[u8]) -> Option<&str> {
    let mut letters: usize = 0;
    for byte in bytes.iter().take(MOST_LETTERS) {
        if !byte.is_ascii_alphabetic() {
            break;
        }
        letters = letters.saturating_add(1);
    }
    if letters == 0 {
        return None;
    }
    match bytes.get(..letters) {
        Some(word) => std::str::from_utf8(word).ok(),
        None => None,
    }
}

// The character with which these bytes begin, if it is one.
fn character_of(bytes: &[u8]) -> Option<char> {
    match std::str::from_utf8(bytes) {
        Ok(text) => text.chars().next(),
        Err(fault) => match bytes.get(..fault.valid_up_to()) {
            Some(front) => match std::str::from_utf8(front) {
                Ok(text) => text.chars().next(),
                Err(_) => None,
            },
            None => None,
        },
    }
}
