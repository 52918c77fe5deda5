//! Writing atoms, tuples and templates: each has one spelling.

ghost use Rattle.std.specs.Prelude.{◌≡◌, ◌≤◌, ◌∷◌, ◌++◌, All, length, take, OnOk, OnErr};
ghost use Rattle.linda_tuple.specs.Form.{longest_text, most_fields};
ghost use Rattle.linda_tuple.specs.Atom.{IsSoundIn};
ghost use Rattle.linda_tuple.specs.Tuple.{FitsIn};
ghost use Rattle.linda_tuple.specs.Template.{IsSoundPatternIn, FitsTemplateIn};
ghost use Rattle.linda_codec.specs.declared.kinds.TheConstants.{INTEGER, TEXT, TRUTH};
ghost use Rattle.linda_codec.specs.Formats as formats;
ghost use Rattle.linda_codec.specs.Values as format;

use crate::kinds::{BOOL_FORMAL, INT_FORMAL, INTEGER, TEXT, TEXT_FORMAL, TRUTH, WILDCARD};
use crate::list::push_list;
use crate::spelled::Spelled;
use linda_tuple::{Atom, Form, Pattern, Template, Text, Tuple};
use std::alloc::AllocError;

/// Appends the spelling of the atom.
///
/// # Errors
///
/// If memory runs out, `out` is left as it was.
pub fn put_atom(form: Form, out: &mut Vec<u8>, atom: &Atom) -> Result<(), AllocError>
    requires { IsSoundIn form atom.now }
    ensures ok { OnOk result (out.new.items ≡ out.old.items ++ (format.atom form).spell atom.now) }
    ensures err { OnErr result (out.new.items ≡ out.old.items) }
{
    put(form, out, atom)
}

/// Appends the spelling of the tuple, which is one that has a spelling in the form: `fits` says so.
///
/// # Errors
///
/// If memory runs out, `out` is left as it was.
pub fn put_tuple(form: Form, out: &mut Vec<u8>, tuple: &Tuple) -> Result<(), AllocError>
    requires { FitsIn form tuple.now }
    ensures ok { OnOk result (out.new.items
        ≡ out.old.items ++ (format.tuple form).spell tuple.now) }
    ensures err { OnErr result (out.new.items ≡ out.old.items) }
{
    put(form, out, tuple)
}

/// Appends the spelling of the template, which is one that has a spelling in the form: in the
/// second all have one.
///
/// # Errors
///
/// If memory runs out, `out` is left as it was.
pub fn put_template(form: Form, out: &mut Vec<u8>, template: &Template) -> Result<(), AllocError>
    requires { FitsTemplateIn form template.now }
    ensures ok { OnOk result (out.new.items
        ≡ out.old.items ++ (format.template form).spell template.now) }
    ensures err { OnErr result (out.new.items ≡ out.old.items) }
{
    put(form, out, template)
}

// Appends the spelling of the value; if memory runs out, `out` is left as it was.
fn put<V: Spelled>(form: Form, out: &mut Vec<u8>, value: &V) -> Result<(), AllocError>
    requires { (V.format form).Fits value.now }
    ensures ok { OnOk result (out.new.items ≡ out.old.items ++ (V.format form).spell value.now) }
    ensures err { OnErr result (out.new.items ≡ out.old.items) }
{
    let len = out.len();
    let pushed = value.push(form, out);
    kept_or_cut(out, len, pushed)
}

// Cuts the bytes back to that length if what was pushed is not whole.
fn kept_or_cut(
    out: &mut Vec<u8>,
    len: usize,
    pushed: Result<(), AllocError>,
) -> Result<(), AllocError>
    ensures same { result ≡ pushed }
    ensures ok { OnOk pushed (out.new.items ≡ out.old.items) }
    ensures err { OnErr pushed (out.new.items ≡ take len out.old.items) }
{
    if pushed.is_err() {
        out.truncate(len);
    }
    pushed
}

/// Appends the spelling of the tuple; if memory runs out, a part of it may be after the old bytes.
pub(crate) fn push_tuple(form: Form, out: &mut Vec<u8>, tuple: &Tuple) -> Result<(), AllocError>
    requires { FitsIn form tuple.now }
    ensures ok { OnOk result (out.new.items
        ≡ out.old.items ++ (format.tuple form).spell tuple.now) }
    ensures front { take (length out.old.items) out.new.items ≡ out.old.items }
{
    let fields = tuple.fields();
    push_tagged(form, out, tuple.tag(), fields)
}

/// Appends the spelling of the template; likewise.
pub(crate) fn push_template(
    form: Form,
    out: &mut Vec<u8>,
    template: &Template,
) -> Result<(), AllocError>
    requires { FitsTemplateIn form template.now }
    ensures ok { OnOk result (out.new.items
        ≡ out.old.items ++ (format.template form).spell template.now) }
    ensures front { take (length out.old.items) out.new.items ≡ out.old.items }
{
    let patterns = template.fields();
    push_tagged(form, out, template.tag(), patterns)
}

// Appends the spelling of the tag, the count of the values, and their spellings; likewise.
fn push_tagged<V: Spelled>(
    form: Form,
    out: &mut Vec<u8>,
    tag: &Atom,
    values: &[V],
) -> Result<(), AllocError>
    requires tag { IsSoundIn form tag.now }
    requires count { length values.now ≤ most_fields form }
    requires values { All (V.format form).Fits values.now }
    ensures ok { OnOk result
        (out.new.items ≡ out.old.items
        ++ (format.tagged form (V.format form)).spell (tag.now, values.now)) }
    ensures front { take (length out.old.items) out.new.items ≡ out.old.items }
{
    push_atom(form, out, tag)?;
    out.push(values.len() as u8)?;
    push_list(form, out, values)
}

/// Appends the spelling of the pattern; likewise.
pub(crate) fn push_pattern(
    form: Form,
    out: &mut Vec<u8>,
    pattern: &Pattern,
) -> Result<(), AllocError>
    requires { IsSoundPatternIn form pattern.now }
    ensures ok { OnOk result (out.new.items
        ≡ out.old.items ++ (format.pattern form).spell pattern.now) }
    ensures front { take (length out.old.items) out.new.items ≡ out.old.items }
{
    let kind = match pattern {
        Pattern::Value(value) => return push_atom(form, out, value),
        Pattern::IntFormal => INT_FORMAL,
        Pattern::TextFormal => TEXT_FORMAL,
        Pattern::BoolFormal => BOOL_FORMAL,
        Pattern::Any => WILDCARD,
    };
    out.push(kind)?;
    Ok(())
}

/// Appends the spelling of the atom; likewise.
pub(crate) fn push_atom(form: Form, out: &mut Vec<u8>, atom: &Atom) -> Result<(), AllocError>
    requires { IsSoundIn form atom.now }
    ensures ok { OnOk result (out.new.items ≡ out.old.items ++ (format.atom form).spell atom.now) }
    ensures front { take (length out.old.items) out.new.items ≡ out.old.items }
{
    match atom {
        Atom::Int(number) => push_integer(out, *number),
        Atom::Text(text) => push_text(form, out, text),
        Atom::Bool(truth) => push_truth(out, *truth),
    }
}

// Appends the kind of an integer and the integer; if memory runs out, a part of it may be after the
// old bytes.
fn push_integer(out: &mut Vec<u8>, number: i64) -> Result<(), AllocError>
    ensures ok { OnOk result (out.new.items
        ≡ out.old.items ++ INTEGER ∷ formats.integer.spell number) }
    ensures front { take (length out.old.items) out.new.items ≡ out.old.items }
{
    let [s, t, u, v, w, x, y, z] = number.to_be_bytes();
    out.extend_from_slice(&[INTEGER, s, t, u, v, w, x, y, z])
}

// Appends the kind of a text, its length and the text; likewise.
fn push_text(form: Form, out: &mut Vec<u8>, text: &Text) -> Result<(), AllocError>
    requires { length text.now ≤ longest_text form }
    ensures ok { OnOk result (out.new.items
        ≡ out.old.items ++ TEXT ∷ (format.text form).spell text.now) }
    ensures front { take (length out.old.items) out.new.items ≡ out.old.items }
{
    push_text_head(form, out, text.len())?;
    out.extend_from_slice(text.as_str().as_bytes())
}

// Appends the kind of a truth value and the truth value; likewise.
fn push_truth(out: &mut Vec<u8>, truth: bool) -> Result<(), AllocError>
    ensures ok { OnOk result (out.new.items ≡ out.old.items ++ TRUTH ∷ formats.truth.spell truth) }
    ensures front { take (length out.old.items) out.new.items ≡ out.old.items }
{
    out.extend_from_slice(&[TRUTH, u8::from(truth)])
}

// Appends the kind of a text and its length; likewise.
fn push_text_head(form: Form, out: &mut Vec<u8>, len: usize) -> Result<(), AllocError>
    requires { len ≤ longest_text form }
    ensures ok { OnOk result (out.new.items
        ≡ out.old.items ++ TEXT ∷ (format.text_length form).spell len) }
    ensures front { take (length out.old.items) out.new.items ≡ out.old.items }
{
    match form {
        Form::One => out.extend_from_slice(&[TEXT, len as u8]),
        Form::Two => {
            let [high, low] = (len as u16).to_be_bytes();
            out.extend_from_slice(&[TEXT, high, low])
        }
    }
}
