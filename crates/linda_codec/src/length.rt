//! Lengths of atoms, tuples and templates in a form, counted without spelling them.

ghost use Rattle.std.specs.Prelude.{◌≡◌, ◌≤◌, ℕ, length};
ghost use Rattle.linda_tuple.specs.Atom.{IsSound};
ghost use Rattle.linda_tuple.specs.Template.{IsSoundPattern};
ghost use Rattle.linda_codec.specs.declared.limits.TheConstants.{MAX_ATOM_BYTES, MAX_TUPLE_BYTES};
ghost use Rattle.linda_codec.specs.declared.limits.TheConstants.{TWO_LENGTH_BYTES};
ghost use Rattle.linda_codec.specs.Values as format;

use crate::limits::{
    COUNT_BYTES, KIND_BYTES, NUMBER_BYTES, ONE_LENGTH_BYTES, TRUTH_BYTES, TWO_LENGTH_BYTES,
};
use crate::list::list_len;
use linda_tuple::{Atom, Form, Pattern, Template, Tuple};

/// How many bytes the tuple spells in the form.
pub fn tuple_len(form: Form, tuple: &Tuple) -> usize
    ensures exact { result ≡ length ((format.tuple form).spell tuple.now) }
    ensures short { result ≤ MAX_TUPLE_BYTES }
{
    let fields = tuple.fields();
    atom_len(form, tuple.tag()) + COUNT_BYTES + list_len(form, fields)
}

/// How many bytes the template spells in the form.
pub(crate) fn template_len(form: Form, template: &Template) -> usize
    ensures exact { result ≡ length ((format.template form).spell template.now) }
    ensures short { result ≤ MAX_TUPLE_BYTES }
{
    let patterns = template.fields();
    atom_len(form, template.tag()) + COUNT_BYTES + list_len(form, patterns)
}

/// How many bytes the pattern spells.
pub(crate) fn pattern_len(form: Form, pattern: &Pattern) -> usize
    requires { IsSoundPattern pattern.now }
    ensures exact { result ≡ length ((format.pattern form).spell pattern.now) }
    ensures short { result ≤ MAX_ATOM_BYTES }
{
    match pattern {
        Pattern::Value(value) => atom_len(form, value),
        Pattern::IntFormal => KIND_BYTES,
        Pattern::TextFormal => KIND_BYTES,
        Pattern::BoolFormal => KIND_BYTES,
        Pattern::Any => KIND_BYTES,
    }
}

/// How many bytes the atom spells.
pub(crate) fn atom_len(form: Form, atom: &Atom) -> usize
    requires { IsSound atom.now }
    ensures exact { result ≡ length ((format.atom form).spell atom.now) }
    ensures short { result ≤ MAX_ATOM_BYTES }
{
    match atom {
        Atom::Int(_) => KIND_BYTES + NUMBER_BYTES,
        Atom::Text(text) => KIND_BYTES + width_of_length(form) + text.len(),
        Atom::Bool(_) => KIND_BYTES + TRUTH_BYTES,
    }
}

// How many bytes the length of a text spells.
fn width_of_length(form: Form) -> usize
    ensures exact { (len : ℕ) → result ≡ length ((format.text_length form).spell len) }
    ensures short { result ≤ TWO_LENGTH_BYTES }
{
    match form {
        Form::One => ONE_LENGTH_BYTES,
        Form::Two => TWO_LENGTH_BYTES,
    }
}
