//! Parts of atoms, tuples and templates: texts as they are in the bytes, and counts.

ghost use Rattle.std.specs.Prelude.{◌≡◌, true, false, MatchOption};
ghost use Rattle.std.specs.Str.{is_utf8};
ghost use Rattle.linda_tuple.specs.Form.{most_fields};
ghost use Rattle.linda_codec.specs.Steps.{GivesAlways};
ghost use Rattle.linda_codec.specs.Formats.{count_at};
ghost use Rattle.linda_codec.specs.Values as format;

use crate::fault::ReadFault;
use crate::number::{read_length, read_u8};
use linda_tuple::Form;

/// A text's length.
fn read_text_length(form: Form, bytes: &[u8]) -> Result<(usize, &[u8]), ReadFault>
    ensures { GivesAlways (λ x. (x.0, x.1.now)) result ((format.text_length form).read bytes.now) }
{
    match form {
        Form::One => {
            let (len, rest) = read_u8(bytes)?;
            Ok((usize::from(len), rest))
        }
        Form::Two => read_length(Form::Two.longest_text(), bytes),
    }
}

/// A text's length and that many bytes of UTF-8: the text, if it is, and the bytes after it.
pub(crate) fn split_text(form: Form, bytes: &[u8]) -> Result<(&str, &[u8]), ReadFault>
    ensures { GivesAlways (λ x. (x.0.now, x.1.now)) result ((format.text form).read bytes.now) }
{
    let (len, rest) = read_text_length(form, bytes)?;
    if rest.len() < len {
        return Err(ReadFault::Short);
    }
    let (content, after) = rest.split_at(len);
    match as_text(content) {
        None => Err(ReadFault::BadText(rest.len())),
        Some(text) => Ok((text, after)),
    }
}

fn as_text(bytes: &[u8]) -> Option<&str>
    ensures { MatchOption result (is_utf8 bytes.now ≡ false)
        (λ s. (s.now ≡ bytes.now) × (is_utf8 bytes.now ≡ true)) }
{
    match std::str::from_utf8(bytes) {
        Ok(text) => Some(text),
        Err(_) => None,
    }
}

/// The count of the fields or patterns.
pub(crate) fn read_count(form: Form, bytes: &[u8]) -> Result<(usize, &[u8]), ReadFault>
    ensures { GivesAlways (λ x. (x.0, x.1.now)) result (count_at (most_fields form) bytes.now) }
{
    match bytes {
        [] => Err(ReadFault::Short),
        [count, rest @ ..] => {
            if usize::from(*count) > form.most_fields() {
                return Err(ReadFault::TooMany(bytes.len()));
            }
            Ok((usize::from(*count), rest))
        }
    }
}
