//! Expectations at a place: what a text could go on with there.

use crate::reading::{Reading, ReadingKind, read};
use std::alloc::{AllocError, Global};

// What is tried, and how it is named.
const PROBES: [(&str, &str); 15] = [
    ("(", "\"(\""),
    (")", "\")\""),
    (",", "\",\""),
    ("[", "\"[\""),
    ("]", "\"]\""),
    ("\"\"", "a text in double quotes"),
    ("0", "a number"),
    ("true", "true or false"),
    ("?i", "?i, ?s or ?b"),
    ("_", "_"),
    ("in", "in or rd"),
    ("alarm", "alarm"),
    ("always", "always"),
    ("choose", "choose, wrap or nack"),
    ("never", "never"),
];

// What goes on nowhere but in a text.
const ODD: &str = "\u{a7}";

/// Appends what could come after the front of a text: those of a table that the reader takes there,
/// at once or after a blank. It is "the end of the line" if there are none, the closing quote in a
/// text, an escape after a backslash, a letter after a `?`, and a blank if only that is missing
/// before the rest of the text.
///
/// # Errors
///
/// `AllocError` if memory runs out.
pub(crate) fn push_expected(
    alloc: Global,
    out: &mut String,
    kind: ReadingKind,
    front: &str,
    rest: &str,
) -> Result<(), AllocError> {
    if front.as_bytes().ends_with(b"?") && !goes_on(alloc, kind, front, ODD)? {
        return out.push_str("i, s or b");
    }
    if front.as_bytes().ends_with(b"\\") {
        return out.push_str("\", \\, n, r or t");
    }
    if goes_on(alloc, kind, front, ODD)? {
        return out.push_str("a closing double quote");
    }
    if lacks_blank(alloc, kind, front, rest)? {
        return out.push_str("a blank");
    }
    let mut count: usize = 0;
    for (probe, name) in PROBES {
        if may_follow(alloc, kind, front, probe)? {
            if count > 0 {
                out.push_str(", ")?;
            }
            out.push_str(name)?;
            count = count.saturating_add(1);
        }
    }
    if count == 0 {
        out.push_str("the end of the line")?;
    }
    Ok(())
}

/// Where a text goes wrong if its reader stopped at this place: there; or before it, at the first
/// letter of a word that is none, though the reader took some of its letters, as of `foo`, which
/// begins like `false`, or of `alarms`.
///
/// # Errors
///
/// `AllocError` if memory runs out.
pub(crate) fn wrong_from(
    alloc: Global,
    kind: ReadingKind,
    text: &str,
    at: usize,
) -> Result<usize, AllocError> {
    let Some((front, rest)) = text.split_at_checked(at) else {
        return Ok(at);
    };
    let letters = letters_at_the_end(front.as_bytes());
    if letters == 0 || goes_on(alloc, kind, front, ODD)? {
        return Ok(at);
    }
    let is_longer = match rest.as_bytes() {
        [first, ..] => first.is_ascii_alphabetic(),
        [] => false,
    };
    if !is_longer && ends_a_word(alloc, kind, front)? {
        return Ok(at);
    }
    Ok(at.saturating_sub(letters))
}

// Whether the letters at the end of this front are a whole word: the front is all of a text, or the
// beginning of one.
fn ends_a_word(alloc: Global, kind: ReadingKind, front: &str) -> Result<bool, AllocError> {
    if let Reading::Whole = read(alloc, kind, front)? {
        return Ok(true);
    }
    for (probe, _) in PROBES {
        if may_follow(alloc, kind, front, probe)? {
            return Ok(true);
        }
    }
    Ok(false)
}

// Whether the front could go on with this, at once or after a blank. A number is not made longer.
fn may_follow(
    alloc: Global,
    kind: ReadingKind,
    front: &str,
    probe: &str,
) -> Result<bool, AllocError> {
    let is_longer_number = probe == "0"
        && match front.as_bytes() {
            [.., last] => last.is_ascii_digit(),
            [] => false,
        };
    if !is_longer_number && goes_on(alloc, kind, front, probe)? {
        return Ok(true);
    }
    let mut spaced = String::from_str(alloc, " ")?;
    spaced.push_str(probe)?;
    goes_on(alloc, kind, front, spaced.as_str())
}

// Whether a blank is missing between the front and the rest: with one the reader gets further.
fn lacks_blank(
    alloc: Global,
    kind: ReadingKind,
    front: &str,
    rest: &str,
) -> Result<bool, AllocError> {
    let is_word = match front.as_bytes() {
        [.., last] => last.is_ascii_alphanumeric(),
        [] => false,
    };
    if !is_word {
        return Ok(false);
    }
    let mut text = String::from_str(alloc, front)?;
    text.push_str(" ")?;
    let so_far = text.len();
    text.push_str(rest)?;
    match read(alloc, kind, text.as_str())? {
        Reading::Whole => Ok(!rest.is_empty()),
        Reading::At(at) => Ok(wrong_from(alloc, kind, text.as_str(), at)? > so_far),
        Reading::Beyond(_) => Ok(false),
    }
}

// With how many small letters these bytes end.
fn letters_at_the_end(bytes: &[u8]) -> usize {
    let mut letters: usize = 0;
    for byte in bytes {
        letters = if byte.is_ascii_lowercase() {
            letters.saturating_add(1)
        } else {
            0
        };
    }
    letters
}

// Whether the reader takes all of the front with this after it: as a whole, or as the beginning of
// a longer text.
fn goes_on(alloc: Global, kind: ReadingKind, front: &str, probe: &str) -> Result<bool, AllocError> {
    let mut text = String::from_str(alloc, front)?;
    text.push_str(probe)?;
    match read(alloc, kind, text.as_str())? {
        Reading::Whole => Ok(true),
        Reading::At(at) => Ok(at >= text.len()),
        Reading::Beyond(_) => Ok(false),
    }
}
