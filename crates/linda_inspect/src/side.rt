//! Lines of the sides: what the file of one bank begins with.

use linda_journal::{Heading, read_heading};
use linda_tuple::Form;
use std::alloc::{AllocError, Global};

/// The line of a file: whose it is, what it begins with, and how many bytes it has.
///
/// # Errors
///
/// `AllocError` if memory runs out.
pub(crate) fn side_line(alloc: Global, side: &str, bytes: &[u8]) -> Result<String, AllocError> {
    let len = bytes.len();
    match read_heading(bytes) {
        Heading::Bank { form, generation } => {
            let letters = letters_of(form);
            format!(in alloc; "{side} {letters} generation {generation} bytes {len}\n")
        }
        Heading::Foreign => format!(in alloc; "{side} foreign bytes {len}\n"),
        Heading::NoBank => {
            let what = if len == 0 { "empty" } else { "closed" };
            format!(in alloc; "{side} {what} bytes {len}\n")
        }
    }
}

/// Whether both begin as banks do.
pub(crate) fn are_two(left: &[u8], right: &[u8]) -> bool {
    is_bank(left) && is_bank(right)
}

// Whether the bytes begin as a bank does.
fn is_bank(bytes: &[u8]) -> bool {
    match read_heading(bytes) {
        Heading::Bank { .. } => true,
        Heading::Foreign => false,
        Heading::NoBank => false,
    }
}

/// The letters that a bank in this form begins with, after its gate.
pub(crate) fn letters_of(form: Form) -> &'static str {
    match form {
        Form::One => "LND1",
        Form::Two => "LND2",
    }
}

/// The name of a side.
pub(crate) fn side_name(is_right: bool) -> &'static str {
    if is_right { "right" } else { "left" }
}
