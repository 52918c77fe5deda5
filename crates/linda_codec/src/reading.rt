//! Readers of atoms, tuples and templates, each of which gives the value and the bytes after it.
//!
//! `Memory` is returned last: only of bytes at whose front a whole value is.

ghost use Rattle.std.specs.Prelude.{◌∷◌, [], IsOk, IsErrOf};
ghost use Rattle.linda_tuple.specs.declared.atom.Atom.TheVariants as atoms;
ghost use Rattle.linda_codec.specs.Steps.{Gives, GivesAlways, many_at};
ghost use Rattle.linda_codec.specs.Formats.{integer, made_at, truth};
ghost use Rattle.linda_codec.specs.Values as format;

use crate::fault::ReadFault;
use crate::kinds::{BOOL_FORMAL, INT_FORMAL, INTEGER, TEXT, TEXT_FORMAL, TRUTH, WILDCARD};
use crate::limits::KIND_BYTES;
use crate::list::read_list;
use crate::number::{read_bool, read_i64};
use crate::parts::{read_count, split_text};
use crate::skipping::{skip_template, skip_tuple};
use linda_tuple::{Atom, Form, Pattern, Template, Text, Tuple};
use std::alloc::Global;

/// Reads an atom, and gives the bytes after it.
///
/// # Errors
///
/// The first fault from the left, given by the count of bytes left; `Memory` if a text finds none.
pub fn read_atom(alloc: Global, form: Form, bytes: &[u8]) -> Result<(Atom, &[u8]), ReadFault>
    ensures value { Gives (λ x. (x.0, x.1.now)) result ((format.atom form).read bytes.now) }
    ensures memory { IsErrOf result ReadFault.Memory → IsOk ((format.atom form).read bytes.now) }
{
    match bytes {
        [] => Err(ReadFault::Short),
        [kind, rest @ ..] => read_atom_body(alloc, form, *kind, rest),
    }
}

// Reads an atom of that kind, of which the kind is read and the body is at the front.
fn read_atom_body(
    alloc: Global,
    form: Form,
    kind: u8,
    bytes: &[u8],
) -> Result<(Atom, &[u8]), ReadFault>
    ensures value { Gives (λ x. (x.0, x.1.now)) result (format.atom_body_at form kind bytes.now) }
    ensures memory { IsErrOf result ReadFault.Memory
        → IsOk (format.atom_body_at form kind bytes.now) }
{
    match kind {
        INTEGER => read_integer(bytes),
        TEXT => read_text(alloc, form, bytes),
        TRUTH => read_truth(bytes),
        _ => Err(ReadFault::BadKind(KIND_BYTES + bytes.len())),
    }
}

// Reads an integer, as an atom.
fn read_integer(bytes: &[u8]) -> Result<(Atom, &[u8]), ReadFault>
    ensures { GivesAlways (λ x. (x.0, x.1.now)) result
        (made_at (λ n. atoms.Int n) integer bytes.now) }
{
    let (number, rest) = read_i64(bytes)?;
    Ok((Atom::Int(number), rest))
}

// Reads a text, as an atom.
fn read_text(alloc: Global, form: Form, bytes: &[u8]) -> Result<(Atom, &[u8]), ReadFault>
    ensures value { Gives (λ x. (x.0, x.1.now)) result
        (made_at (λ t. atoms.Text t) (format.text form) bytes.now) }
    ensures memory { IsErrOf result ReadFault.Memory
        → IsOk (made_at (λ t. atoms.Text t) (format.text form) bytes.now) }
{
    let (text, rest) = split_text(form, bytes)?;
    let string = String::from_str(alloc, text)?;
    Ok((Atom::Text(Text::new(string)), rest))
}

// Reads a truth value, as an atom.
fn read_truth(bytes: &[u8]) -> Result<(Atom, &[u8]), ReadFault>
    ensures { GivesAlways (λ x. (x.0, x.1.now)) result
        (made_at (λ b. atoms.Bool b) truth bytes.now) }
{
    let (truth, rest) = read_bool(bytes)?;
    Ok((Atom::Bool(truth), rest))
}

/// Reads a tuple, and gives the bytes after it.
///
/// # Errors
///
/// The first fault from the left, given by the count of bytes left; `Memory` if a tuple is there
/// and finds none.
pub fn read_tuple(alloc: Global, form: Form, bytes: &[u8]) -> Result<(Tuple, &[u8]), ReadFault>
    ensures value { Gives (λ x. (x.0, x.1.now)) result ((format.tuple form).read bytes.now) }
    ensures memory { IsErrOf result ReadFault.Memory → IsOk ((format.tuple form).read bytes.now) }
{
    match build_tuple(alloc, form, bytes) {
        Ok(read) => Ok(read),
        Err(fault) => {
            if fault == ReadFault::Memory {
                skip_tuple(form, bytes)?;
            }
            Err(fault)
        }
    }
}

/// Reads a template, and gives the bytes after it.
///
/// # Errors
///
/// The first fault from the left, given by the count of bytes left; `Memory` if a template is there
/// and finds none.
pub fn read_template(
    alloc: Global,
    form: Form,
    bytes: &[u8],
) -> Result<(Template, &[u8]), ReadFault>
    ensures value { Gives (λ x. (x.0, x.1.now)) result ((format.template form).read bytes.now) }
    ensures memory { IsErrOf result ReadFault.Memory
        → IsOk ((format.template form).read bytes.now) }
{
    match build_template(alloc, form, bytes) {
        Ok(read) => Ok(read),
        Err(fault) => {
            if fault == ReadFault::Memory {
                skip_template(form, bytes)?;
            }
            Err(fault)
        }
    }
}

// Reads a tuple; `Memory` may be returned before a fault that is after it.
fn build_tuple(alloc: Global, form: Form, bytes: &[u8]) -> Result<(Tuple, &[u8]), ReadFault>
    ensures { Gives (λ x. (x.0, x.1.now)) result ((format.tuple form).read bytes.now) }
{
    let (tag, rest) = read_atom(alloc, form, bytes)?;
    let (count, rest) = read_count(form, rest)?;
    if count == 1 {
        let (field, rest) = read_field(alloc, form, rest)?;
        return Ok((Tuple::single(tag, field).shared(alloc), rest));
    }
    let (fields, rest) = read_list(alloc, form, count, rest)?;
    Ok((Tuple::from_parts(tag, fields).shared(alloc), rest))
}

// Reads the only field of a tuple: no memory is taken for a list.
fn read_field(alloc: Global, form: Form, bytes: &[u8]) -> Result<(Atom, &[u8]), ReadFault>
    ensures { Gives (λ x. (x.0 ∷ [], x.1.now)) result
        (many_at (format.atom form).read 1 bytes.now) }
{
    read_atom(alloc, form, bytes)
}

// Reads a template; likewise.
fn build_template(alloc: Global, form: Form, bytes: &[u8]) -> Result<(Template, &[u8]), ReadFault>
    ensures { Gives (λ x. (x.0, x.1.now)) result ((format.template form).read bytes.now) }
{
    let (tag, rest) = read_atom(alloc, form, bytes)?;
    let (count, rest) = read_count(form, rest)?;
    let (patterns, rest) = read_list(alloc, form, count, rest)?;
    Ok((Template::from_parts(tag, patterns), rest))
}

/// The byte of a formal or of the wildcard, else an atom.
pub(crate) fn read_pattern(
    alloc: Global,
    form: Form,
    bytes: &[u8],
) -> Result<(Pattern, &[u8]), ReadFault>
    ensures value { Gives (λ x. (x.0, x.1.now)) result ((format.pattern form).read bytes.now) }
    ensures memory { IsErrOf result ReadFault.Memory → IsOk ((format.pattern form).read bytes.now) }
{
    match bytes {
        [] => Err(ReadFault::Short),
        [kind, rest @ ..] => read_pattern_body(alloc, form, *kind, rest),
    }
}

// Reads a pattern of that kind, of which the kind is read.
fn read_pattern_body(
    alloc: Global,
    form: Form,
    kind: u8,
    bytes: &[u8],
) -> Result<(Pattern, &[u8]), ReadFault>
    ensures value { Gives (λ x. (x.0, x.1.now)) result
        (format.pattern_body_at form kind bytes.now) }
    ensures memory { IsErrOf result ReadFault.Memory
        → IsOk (format.pattern_body_at form kind bytes.now) }
{
    match kind {
        INT_FORMAL => Ok((Pattern::IntFormal, bytes)),
        TEXT_FORMAL => Ok((Pattern::TextFormal, bytes)),
        BOOL_FORMAL => Ok((Pattern::BoolFormal, bytes)),
        WILDCARD => Ok((Pattern::Any, bytes)),
        _ => read_value(alloc, form, kind, bytes),
    }
}

// Reads an atom, as a pattern, of which the kind is read.
fn read_value(
    alloc: Global,
    form: Form,
    kind: u8,
    bytes: &[u8],
) -> Result<(Pattern, &[u8]), ReadFault>
    ensures value { Gives (λ x. (x.0, x.1.now)) result (format.value_at form (kind ∷ bytes.now)) }
    ensures memory { IsErrOf result ReadFault.Memory
        → IsOk (format.value_at form (kind ∷ bytes.now)) }
{
    let (value, rest) = read_atom_body(alloc, form, kind, bytes)?;
    Ok((Pattern::Value(value), rest))
}
