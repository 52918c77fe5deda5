//! The fields of tuples and of templates: a comma before each, the closing parenthesis after the
//! last.

ghost use Rattle.linda_tuple.specs.declared.limits.TheConstants.{MAX_FIELDS};
ghost use Rattle.linda_text.specs.Reading.{after_blanks, more_at, no_more_at, fields_at};
ghost use Rattle.linda_codec.specs.Steps.{left_by};
ghost use Rattle.linda_text.specs.Steps.{Reader, Gives, GivesAlways};

use crate::blank::skip_blanks;
use crate::fault::TextFault;
use crate::marks::{CLOSING, COMMA};
use linda_tuple::MAX_FIELDS;
use std::alloc::Global;

/// What a field may be: an atom in a tuple, a pattern in a template. No blanks are before it.
pub(crate) trait Field: Drop {
    ghost reading: { Reader Self };

    /// The field at the front, and the bytes after it; `Memory` may be returned before a fault.
    fn read(alloc: Global, bytes: &[u8]) -> Result<(Self, &[u8]), TextFault>
        ensures { Gives (λ x. (x.0, x.1.now)) result (reading bytes.now) };

    /// The bytes after the field at the front.
    fn skip(bytes: &[u8]) -> Result<&[u8], TextFault>
        ensures { GivesAlways (λ rest. rest.now) result (left_by (reading bytes.now)) };
}

/// The fields that follow a tag, and the bytes after the closing parenthesis.
pub(crate) fn read_fields<F: Field>(
    alloc: Global,
    bytes: &[u8],
) -> Result<(Vec<F>, &[u8]), TextFault>
    ensures { Gives (λ x. (x.0.items, x.1.now)) result (fields_at F.reading MAX_FIELDS bytes.now) }
{
    let mut fields = Vec::new(alloc);
    let mut rest = bytes;
    for _ in 0..MAX_FIELDS {
        let (more, after) = read_more(rest)?;
        if !more {
            return Ok((fields, after));
        }
        let (field, after) = F::read(alloc, skip_blanks(after))?;
        fields.push(field)?;
        rest = after;
    }
    let rest = read_no_more(rest)?;
    Ok((fields, rest))
}

/// The bytes after the closing parenthesis after the fields.
pub(crate) fn skip_fields<F: Field>(bytes: &[u8]) -> Result<&[u8], TextFault>
    ensures { GivesAlways (λ rest. rest.now) result
        (left_by (fields_at F.reading MAX_FIELDS bytes.now)) }
{
    let mut rest = bytes;
    for _ in 0..MAX_FIELDS {
        let (more, after) = read_more(rest)?;
        if !more {
            return Ok(after);
        }
        rest = F::skip(skip_blanks(after))?;
    }
    read_no_more(rest)
}

// Whether a comma is after the blanks, or the closing parenthesis; and the bytes after it.
#[tactic(auto, unfolding(crate::specs::Reading::more_at))]
fn read_more(bytes: &[u8]) -> Result<(bool, &[u8]), TextFault>
    ensures { GivesAlways (λ x. (x.0, x.1.now)) result (more_at (after_blanks bytes.now)) }
{
    let rest = skip_blanks(bytes);
    match rest {
        [] => Err(TextFault::SyntaxAt(0)),
        [COMMA, after @ ..] => Ok((true, after)),
        [CLOSING, after @ ..] => Ok((false, after)),
        [_, ..] => Err(TextFault::SyntaxAt(rest.len())),
    }
}

// The bytes after the closing parenthesis, if no more fields may follow.
#[tactic(auto, unfolding(crate::specs::Reading::no_more_at))]
fn read_no_more(bytes: &[u8]) -> Result<&[u8], TextFault>
    ensures { GivesAlways (λ rest. rest.now) result (no_more_at bytes.now) }
{
    let (more, rest) = read_more(bytes)?;
    if more {
        return Err(TextFault::TooManyFields);
    }
    Ok(rest)
}
