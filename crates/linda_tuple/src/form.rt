//! Forms: the two ways to spell values in bytes, and which values each of them can spell.

ghost use Rattle.std.specs.Prelude.{◌≡◌, ◌↔◌, IsTrue};
ghost use Rattle.linda_tuple.specs.Form.{longest_text, most_fields};
ghost use Rattle.linda_tuple.specs.Tuple.{FitsIn};

use crate::limits::{MAX_FIELDS, MAX_TEXT, ONE_MAX_FIELDS, ONE_MAX_TEXT};
use crate::tuple::Tuple;

/// How values are spelled in bytes.
#[derive(Clone, Copy, Debug, PartialEq, Eq)]
pub enum Form {
    /// A text comes after a length of one byte. Texts have at most 255 bytes, and at most 16 fields
    /// follow a tag.
    One,
    /// A text comes after a length of two bytes. Every tuple and every template has a spelling.
    Two,
}

impl Form {
    /// The longest text that has a spelling, in bytes.
    pub fn longest_text(self) -> usize
        ensures { result ≡ longest_text self }
    {
        match self {
            Form::One => ONE_MAX_TEXT,
            Form::Two => MAX_TEXT,
        }
    }

    /// The most fields, or patterns, that may follow a tag.
    pub fn most_fields(self) -> usize
        ensures { result ≡ most_fields self }
    {
        match self {
            Form::One => ONE_MAX_FIELDS,
            Form::Two => MAX_FIELDS,
        }
    }
}

/// Whether the tuple has a spelling in this form.
pub fn fits(form: Form, tuple: &Tuple) -> bool
    ensures { IsTrue result ↔ FitsIn form tuple.now }
{
    let fields = tuple.fields();
    match form {
        Form::One => {
            fields.len() <= form.most_fields()
                && tuple.tag().fits(form)
                && fields.iter().all(|field| field.fits(form))
        }
        // The limits that every tuple keeps are those of this form.
        Form::Two => true,
    }
}
