//! Writing atoms, tuples and templates: each value has one text that is written.

ghost use Rattle.std.specs.Prelude.{◌≡◌, ℕ, List, IfOk, OnOk};
ghost use Rattle.std.specs.Char.{encode_utf8};
ghost use Rattle.std.specs.List.{flat_map};
ghost use Rattle.std.specs.String.{string_bytes};
ghost use Rattle.linda_text.specs.Written.{written_byte, written_string, written_atom};
ghost use Rattle.linda_text.specs.Written.{written_field, written_row, written_tuple};
ghost use Rattle.linda_text.specs.Written.{written_template, IsWrittenBehind};

use linda_tuple::{Atom, Pattern, Template, Tuple};
use std::alloc::{AllocError, Global};

/// The text of the tuple, with `, ` between what is in it and no other blanks.
///
/// # Errors
///
/// `AllocError` if memory runs out.
pub fn write_tuple(alloc: Global, tuple: &Tuple) -> Result<String, AllocError>
    ensures { IfOk result (λ s. string_bytes s ≡ written_tuple tuple.now) }
{
    let mut out = String::new(alloc);
    push_row(&mut out, tuple.tag(), tuple.fields())?;
    Ok(out)
}

/// The text of the atom.
///
/// # Errors
///
/// `AllocError` if memory runs out.
pub fn write_atom(alloc: Global, atom: &Atom) -> Result<String, AllocError>
    ensures { IfOk result (λ s. string_bytes s ≡ written_atom atom.now) }
{
    let mut out = String::new(alloc);
    push_atom(&mut out, atom)?;
    Ok(out)
}

/// Appends the text of the template, with `, ` between what is in it and no other blanks.
///
/// # Errors
///
/// `AllocError` if memory runs out; a part of the text may then be there.
pub fn push_template(out: &mut String, template: &Template) -> Result<(), AllocError>
    ensures { OnOk result (IsWrittenBehind out.old out.new (written_template template.now)) }
{
    push_row(out, template.tag(), template.fields())
}

/// Appends the text of the atom.
///
/// # Errors
///
/// `AllocError` if memory runs out; a part of the text may then be there.
pub fn push_atom(out: &mut String, atom: &Atom) -> Result<(), AllocError>
    ensures { OnOk result (IsWrittenBehind out.old out.new (written_atom atom.now)) }
{
    match atom {
        Atom::Int(number) => write!(out, "{number}"),
        Atom::Text(text) => push_string(out, text.as_str()),
        Atom::Bool(true) => out.push_str("true"),
        Atom::Bool(false) => out.push_str("false"),
    }
}

fn push_row<F: Written>(out: &mut String, tag: &Atom, fields: &[F]) -> Result<(), AllocError>
    ensures { OnOk result (IsWrittenBehind out.old out.new
        (written_row F.written tag.now fields.now)) }
{
    out.push_str("(")?;
    push_atom(out, tag)?;
    push_fields(out, fields)?;
    out.push_str(")")
}

fn push_fields<F: Written>(out: &mut String, fields: &[F]) -> Result<(), AllocError>
    ensures { OnOk result (IsWrittenBehind out.old out.new
        (flat_map (written_field F.written) fields.now)) }
{
    for field in fields {
        out.push_str(", ")?;
        field.push(out)?;
    }
    Ok(())
}

// What is in a row: an atom in a tuple, a pattern in a template.
trait Written {
    ghost written: { Self → List ℕ };

    fn push(&self, out: &mut String) -> Result<(), AllocError>
        ensures { OnOk result (IsWrittenBehind out.old out.new (written self.now)) };
}

impl Written for Atom {
    ghost use Rattle.linda_text.specs.Written.{written_atom};

    ghost written = { written_atom };

    fn push(&self, out: &mut String) -> Result<(), AllocError> {
        push_atom(out, self)
    }
}

impl Written for Pattern {
    ghost use Rattle.linda_text.specs.Written.{written_pattern};

    ghost written = { written_pattern };

    fn push(&self, out: &mut String) -> Result<(), AllocError> {
        match self {
            Pattern::Value(value) => push_atom(out, value),
            Pattern::IntFormal => out.push_str("?i"),
            Pattern::TextFormal => out.push_str("?s"),
            Pattern::BoolFormal => out.push_str("?b"),
            Pattern::Any => out.push_str("_"),
        }
    }
}

fn push_string(out: &mut String, text: &str) -> Result<(), AllocError>
    ensures { OnOk result (IsWrittenBehind out.old out.new (written_string text.now)) }
{
    out.push_str("\"")?;
    push_content(out, text)?;
    out.push_str("\"")
}

fn push_content(out: &mut String, text: &str) -> Result<(), AllocError>
    ensures { OnOk result (IsWrittenBehind out.old out.new (flat_map written_byte text.now)) }
{
    for c in text.chars() {
        push_char(out, c)?;
    }
    Ok(())
}

// A character of a string, as itself or as an escape.
fn push_char(out: &mut String, c: char) -> Result<(), AllocError>
    ensures { OnOk result (IsWrittenBehind out.old out.new
        (flat_map written_byte (encode_utf8 c))) }
{
    match c {
        '"' => out.push_str("\\\""),
        '\\' => out.push_str("\\\\"),
        '\n' => out.push_str("\\n"),
        '\t' => out.push_str("\\t"),
        '\r' => out.push_str("\\r"),
        _ => out.push(c),
    }
}
