//! Tokens between the nodes of an event: ends of words, labels, commas and brackets.

ghost use Rattle.linda_text.specs.Steps.{GivesAlways};
ghost use Rattle.linda_text.specs.Reading.{after_blanks};
ghost use Rattle.linda_shell_text.specs.Words.{word_end, label_at, open_at, mark_at};

use crate::marks::{CLOSING_BRACKET, OPENING_BRACKET};
use linda_text::{COMMA, TextFault, skip_blanks, skip_word, split_number};

/// The bytes, if no letter or digit is at their front.
#[tactic(auto, unfolding(crate::specs::Words::word_end))]
pub(crate) fn end_word(bytes: &[u8]) -> Result<&[u8], TextFault>
    ensures { GivesAlways (λ rest. rest.now) result (word_end bytes.now) }
{
    match bytes {
        [] => Ok(bytes),
        [first, ..] => {
            if first.is_ascii_alphanumeric() {
                return Err(TextFault::SyntaxAt(bytes.len()));
            }
            Ok(bytes)
        }
    }
}

/// A number after blanks, which no letter or digit follows, and the bytes after it.
#[tactic(auto, unfolding(crate::specs::Words::label_at))]
pub(crate) fn read_label(bytes: &[u8]) -> Result<(u64, &[u8]), TextFault>
    ensures { GivesAlways (λ x. (x.0, x.1.now)) result (label_at bytes.now) }
{
    let (number, rest) = split_number(skip_blanks(bytes))?;
    Ok((number, end_word(rest)?))
}

/// Whether members follow the opening bracket that comes after blanks, and the bytes from the first
/// one on; or those after the closing bracket.
#[tactic(auto, unfolding(crate::specs::Words::open_at))]
pub(crate) fn open_list(bytes: &[u8]) -> Result<(bool, &[u8]), TextFault>
    ensures { GivesAlways (λ x. (x.0, x.1.now)) result (open_at bytes.now) }
{
    let rest = skip_blanks(skip_word(skip_blanks(bytes), &[OPENING_BRACKET])?);
    match rest {
        [] => Ok((true, rest)),
        [CLOSING_BRACKET, behind @ ..] => Ok((false, behind)),
        [_, ..] => Ok((true, rest)),
    }
}

/// Whether the mark after blanks is a comma, and not the closing bracket; and the bytes after that
/// mark.
#[tactic(auto, unfolding(crate::specs::Words::mark_at))]
pub(crate) fn read_mark(bytes: &[u8]) -> Result<(bool, &[u8]), TextFault>
    ensures { GivesAlways (λ x. (x.0, x.1.now)) result (mark_at (after_blanks bytes.now)) }
{
    let rest = skip_blanks(bytes);
    match rest {
        [] => Err(TextFault::SyntaxAt(0)),
        [COMMA, after @ ..] => Ok((true, after)),
        [CLOSING_BRACKET, after @ ..] => Ok((false, after)),
        [_, ..] => Err(TextFault::SyntaxAt(rest.len())),
    }
}
