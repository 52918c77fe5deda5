//! Passing over tuples and templates: what their readers leave and which fault they return, without
//! taking memory.

ghost use Rattle.std.specs.Prelude.{◌∷◌};
ghost use Rattle.linda_codec.specs.Steps.{GivesAlways, left_by};
ghost use Rattle.linda_codec.specs.Formats.{integer, truth};
ghost use Rattle.linda_codec.specs.Values as format;

use crate::fault::ReadFault;
use crate::kinds::{BOOL_FORMAL, INT_FORMAL, INTEGER, TEXT, TEXT_FORMAL, TRUTH, WILDCARD};
use crate::limits::KIND_BYTES;
use crate::list::skip_list;
use crate::number::{read_bool, read_i64};
use crate::parts::{read_count, split_text};
use crate::spelled::Spelled;
use linda_tuple::{Atom, Form, Pattern};

/// The bytes after the tuple at the front.
///
/// # Errors
///
/// The first fault from the left, given by the count of bytes left; never `Memory`.
pub fn skip_tuple(form: Form, bytes: &[u8]) -> Result<&[u8], ReadFault>
    ensures { GivesAlways (λ rest. rest.now) result (left_by ((format.tuple form).read bytes.now)) }
{
    skip_tagged::<Atom>(form, bytes)
}

/// The bytes after the template at the front.
///
/// # Errors
///
/// The first fault from the left, given by the count of bytes left; never `Memory`.
pub fn skip_template(form: Form, bytes: &[u8]) -> Result<&[u8], ReadFault>
    ensures { GivesAlways (λ rest. rest.now) result
        (left_by ((format.template form).read bytes.now)) }
{
    skip_tagged::<Pattern>(form, bytes)
}

// The bytes after a tag and so many values as are counted after it.
fn skip_tagged<V: Spelled>(form: Form, bytes: &[u8]) -> Result<&[u8], ReadFault>
    ensures { GivesAlways (λ rest. rest.now) result
        (left_by ((format.tagged form (V.format form)).read bytes.now)) }
{
    let rest = skip_atom(form, bytes)?;
    let (count, rest) = read_count(form, rest)?;
    skip_list::<V>(form, count, rest)
}

/// The bytes after the atom at the front.
pub(crate) fn skip_atom(form: Form, bytes: &[u8]) -> Result<&[u8], ReadFault>
    ensures { GivesAlways (λ rest. rest.now) result (left_by ((format.atom form).read bytes.now)) }
{
    match bytes {
        [] => Err(ReadFault::Short),
        [kind, rest @ ..] => skip_atom_body(form, *kind, rest),
    }
}

// The bytes after an atom of that kind, of which the kind is read and the body is at the front.
fn skip_atom_body(form: Form, kind: u8, bytes: &[u8]) -> Result<&[u8], ReadFault>
    ensures { GivesAlways (λ rest. rest.now) result
        (left_by (format.atom_body_at form kind bytes.now)) }
{
    match kind {
        INTEGER => skip_integer(bytes),
        TEXT => skip_text(form, bytes),
        TRUTH => skip_truth(bytes),
        _ => Err(ReadFault::BadKind(KIND_BYTES + bytes.len())),
    }
}

// The bytes after the integer at the front.
fn skip_integer(bytes: &[u8]) -> Result<&[u8], ReadFault>
    ensures { GivesAlways (λ rest. rest.now) result (left_by (integer.read bytes.now)) }
{
    let (_number, rest) = read_i64(bytes)?;
    Ok(rest)
}

// The bytes after the text at the front.
fn skip_text(form: Form, bytes: &[u8]) -> Result<&[u8], ReadFault>
    ensures { GivesAlways (λ rest. rest.now) result (left_by ((format.text form).read bytes.now)) }
{
    let (_text, rest) = split_text(form, bytes)?;
    Ok(rest)
}

// The bytes after the truth value at the front.
fn skip_truth(bytes: &[u8]) -> Result<&[u8], ReadFault>
    ensures { GivesAlways (λ rest. rest.now) result (left_by (truth.read bytes.now)) }
{
    let (_truth, rest) = read_bool(bytes)?;
    Ok(rest)
}

/// The bytes after the pattern at the front.
pub(crate) fn skip_pattern(form: Form, bytes: &[u8]) -> Result<&[u8], ReadFault>
    ensures { GivesAlways (λ rest. rest.now) result
        (left_by ((format.pattern form).read bytes.now)) }
{
    match bytes {
        [] => Err(ReadFault::Short),
        [kind, rest @ ..] => skip_pattern_body(form, *kind, rest),
    }
}

// The bytes after a pattern of that kind, of which the kind is read.
fn skip_pattern_body(form: Form, kind: u8, bytes: &[u8]) -> Result<&[u8], ReadFault>
    ensures { GivesAlways (λ rest. rest.now) result
        (left_by (format.pattern_body_at form kind bytes.now)) }
{
    match kind {
        INT_FORMAL => Ok(bytes),
        TEXT_FORMAL => Ok(bytes),
        BOOL_FORMAL => Ok(bytes),
        WILDCARD => Ok(bytes),
        _ => skip_value(form, kind, bytes),
    }
}

// The bytes after an atom, as a pattern, of which the kind is read.
fn skip_value(form: Form, kind: u8, bytes: &[u8]) -> Result<&[u8], ReadFault>
    ensures { GivesAlways (λ rest. rest.now) result
        (left_by (format.value_at form (kind ∷ bytes.now))) }
{
    skip_atom_body(form, kind, bytes)
}
