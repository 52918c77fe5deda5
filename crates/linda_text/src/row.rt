//! Tuples and templates at the front of bytes: blanks, the opening parenthesis, the tag, the
//! fields.

ghost use Rattle.std.specs.Prelude.{IsOk, IsErrOf};
ghost use Rattle.linda_text.specs.Reading.{after_blanks, tag_at, row_at};
ghost use Rattle.linda_text.specs.Reading.{tuple_at, template_at, spaced_atom_at};
ghost use Rattle.linda_codec.specs.Steps.{left_by};
ghost use Rattle.linda_text.specs.Steps.{Gives, GivesAlways};

use crate::blank::skip_blanks;
use crate::fault::TextFault;
use crate::field::{Field, read_fields, skip_fields};
use crate::item::{read_atom, skip_atom};
use crate::word::skip_word;
use linda_tuple::{Atom, Pattern, Template, Tuple};
use std::alloc::Global;

/// The tuple after the blanks, and the bytes after it; `Memory` may be returned before a fault.
#[tactic(auto, unfolding(crate::specs::Reading::tuple_at, crate::specs::Reading::row_at))]
pub(crate) fn build_tuple(alloc: Global, bytes: &[u8]) -> Result<(Tuple, &[u8]), TextFault>
    ensures { Gives (λ x. (x.0, x.1.now)) result (tuple_at bytes.now) }
{
    let (tag, rest) = read_tag(alloc, bytes)?;
    let (fields, rest) = read_fields(alloc, rest)?;
    Ok((Tuple::from_parts(tag, fields), rest))
}

/// The template after the blanks, and the bytes after it.
///
/// # Errors
///
/// The first fault from the left, given by the count of bytes left; `Memory` may come before it.
#[tactic(auto, unfolding(crate::specs::Reading::template_at, crate::specs::Reading::row_at))]
pub fn split_template(alloc: Global, bytes: &[u8]) -> Result<(Template, &[u8]), TextFault>
    ensures { Gives (λ x. (x.0, x.1.now)) result (template_at bytes.now) }
{
    let (tag, rest) = read_tag(alloc, bytes)?;
    let (fields, rest) = read_fields(alloc, rest)?;
    Ok((Template::from_parts(tag, fields), rest))
}

/// The bytes after the tuple after the blanks.
pub(crate) fn skip_tuple(bytes: &[u8]) -> Result<&[u8], TextFault>
    ensures { GivesAlways (λ rest. rest.now) result (left_by (tuple_at bytes.now)) }
{
    skip_row::<Atom>(bytes)
}

/// The bytes after the template after the blanks.
///
/// # Errors
///
/// The first fault from the left, given by the count of bytes left; never `Memory`.
pub fn skip_template(bytes: &[u8]) -> Result<&[u8], TextFault>
    ensures { GivesAlways (λ rest. rest.now) result (left_by (template_at bytes.now)) }
{
    skip_row::<Pattern>(bytes)
}

/// The atom after the blanks, and the bytes after it.
///
/// # Errors
///
/// The first fault from the left, given by the count of bytes left; `Memory` if an atom is there
/// that is a string and finds none.
#[tactic(auto, unfolding(crate::specs::Reading::spaced_atom_at))]
pub fn split_spaced_atom(alloc: Global, bytes: &[u8]) -> Result<(Atom, &[u8]), TextFault>
    ensures value { Gives (λ x. (x.0, x.1.now)) result (spaced_atom_at bytes.now) }
    ensures memory { IsErrOf result TextFault.Memory → IsOk (spaced_atom_at bytes.now) }
{
    read_atom(alloc, skip_blanks(bytes))
}

/// The bytes after the atom after the blanks.
///
/// # Errors
///
/// The first fault from the left, given by the count of bytes left; never `Memory`.
#[tactic(auto, unfolding(crate::specs::Reading::spaced_atom_at))]
pub fn skip_spaced_atom(bytes: &[u8]) -> Result<&[u8], TextFault>
    ensures { GivesAlways (λ rest. rest.now) result (left_by (spaced_atom_at bytes.now)) }
{
    skip_atom(skip_blanks(bytes))
}

// The bytes after the row after the blanks.
#[tactic(auto, unfolding(crate::specs::Reading::row_at, crate::specs::Reading::tag_at))]
fn skip_row<F: Field>(bytes: &[u8]) -> Result<&[u8], TextFault>
    ensures { GivesAlways (λ rest. rest.now) result
        (left_by (row_at F.reading (after_blanks bytes.now))) }
{
    let rest = skip_word(skip_blanks(bytes), b"(")?;
    let rest = skip_atom(skip_blanks(rest))?;
    skip_fields::<F>(rest)
}

// The opening parenthesis and the tag.
#[tactic(auto, unfolding(crate::specs::Reading::tag_at))]
fn read_tag(alloc: Global, bytes: &[u8]) -> Result<(Atom, &[u8]), TextFault>
    ensures { Gives (λ x. (x.0, x.1.now)) result (tag_at (after_blanks bytes.now)) }
{
    let rest = skip_word(skip_blanks(bytes), b"(")?;
    read_atom(alloc, skip_blanks(rest))
}
