//! Lines of what was read, or of why nothing was.

use crate::values::hexadecimal::push_digits;
use crate::values::notation::{push_written, tell};
use linda_test_script::WordsFault;
use linda_text::{push_template, write_atom, write_tuple};
use linda_tuple::{Atom, Template, Tuple};
use std::alloc::{AllocError, Global};
use std::fmt::Display;

/// A value that has a text.
pub(crate) trait Written: Drop {
    /// Its text.
    fn written(&self, alloc: Global) -> Result<String, AllocError>;
}

impl Written for Atom {
    fn written(&self, alloc: Global) -> Result<String, AllocError> {
        write_atom(alloc, self)
    }
}

impl Written for Tuple {
    fn written(&self, alloc: Global) -> Result<String, AllocError> {
        write_tuple(alloc, self)
    }
}

impl Written for Template {
    fn written(&self, alloc: Global) -> Result<String, AllocError> {
        let mut text = String::new(alloc);
        push_template(&mut text, self)?;
        Ok(text)
    }
}

impl Written for u8 {
    fn written(&self, alloc: Global) -> Result<String, AllocError> {
        self.to_string(alloc)
    }
}

impl Written for u32 {
    fn written(&self, alloc: Global) -> Result<String, AllocError> {
        self.to_string(alloc)
    }
}

impl Written for u64 {
    fn written(&self, alloc: Global) -> Result<String, AllocError> {
        self.to_string(alloc)
    }
}

impl Written for bool {
    fn written(&self, alloc: Global) -> Result<String, AllocError> {
        self.to_string(alloc)
    }
}

/// Appends a line that gives the fault.
///
/// # Errors
///
/// `AllocError` if memory runs out; a part of the line may then be there.
pub(crate) fn tell_fault<F: Display + Drop>(came: &mut String, fault: F) -> Result<(), AllocError> {
    writeln!(came, "> {fault}")
}

/// Appends what is said of the fault.
///
/// # Errors
///
/// `AllocError` if memory runs out; a part of it may then be there.
pub(crate) fn push_fault<F: Display + Drop>(came: &mut String, fault: F) -> Result<(), AllocError> {
    write!(came, "{fault}")
}

/// Appends a line that gives the value, or the fault.
///
/// # Errors
///
/// `AllocError` if memory runs out; a part of the line may then be there.
pub(crate) fn tell_alone<V: Written, F: Display + Drop>(
    alloc: Global,
    came: &mut String,
    read: Result<V, F>,
) -> Result<(), AllocError> {
    match read {
        Ok(value) => tell_value(alloc, came, &value),
        Err(fault) => tell_fault(came, fault),
    }
}

/// Appends a line that gives the value.
///
/// # Errors
///
/// `AllocError` if memory runs out; a part of the line may then be there.
pub(crate) fn tell_value<V: Written>(
    alloc: Global,
    came: &mut String,
    value: &V,
) -> Result<(), AllocError> {
    let text = value.written(alloc)?;
    tell(came, &text)
}

/// Appends a line that gives the value and the offset after it, or the fault.
///
/// # Errors
///
/// `AllocError` if memory runs out; a part of the line may then be there.
pub(crate) fn tell_placed<V: Written, F: Display + Drop>(
    alloc: Global,
    came: &mut String,
    read: Result<(V, usize), F>,
) -> Result<(), AllocError> {
    match read {
        Ok((value, next)) => {
            push_value(alloc, came, &value)?;
            writeln!(came, " up to {next}")
        }
        Err(fault) => tell_fault(came, fault),
    }
}

/// Appends a line that gives the value and the bytes after it, or the fault.
///
/// # Errors
///
/// `AllocError` if memory runs out; a part of the line may then be there.
pub(crate) fn tell_front<V: Written, F: Display + Drop>(
    alloc: Global,
    came: &mut String,
    read: Result<(V, &[u8]), F>,
) -> Result<(), AllocError> {
    match read {
        Ok((value, rest)) => {
            push_value(alloc, came, &value)?;
            came.push_str(", ")?;
            push_rest(alloc, came, rest)
        }
        Err(fault) => tell_fault(came, fault),
    }
}

/// Appends a line that gives the bytes that are passed over to, or the fault.
///
/// # Errors
///
/// `AllocError` if memory runs out; a part of the line may then be there.
pub(crate) fn tell_rest<F: Display + Drop>(
    alloc: Global,
    came: &mut String,
    rest: Result<&[u8], F>,
) -> Result<(), AllocError> {
    match rest {
        Ok(rest) => {
            came.push_str("> ")?;
            push_rest(alloc, came, rest)
        }
        Err(fault) => tell_fault(came, fault),
    }
}

// Appends the end of a line that gives the bytes after a value.
fn push_rest(alloc: Global, came: &mut String, rest: &[u8]) -> Result<(), AllocError> {
    if rest.is_empty() {
        came.push_str("then nothing\n")
    } else {
        push_digits(alloc, came, "then ", rest)
    }
}

// Appends the beginning of a line that gives the value.
fn push_value<V: Written>(alloc: Global, came: &mut String, value: &V) -> Result<(), AllocError> {
    came.push_str("> ")?;
    push_written(came, &value.written(alloc)?)
}
