//! Lines of what came, each after `> `.

use crate::fault::WordsFault;
use std::alloc::AllocError;
use std::fmt::Display;

/// What was written, or the fault that memory ran out.
///
/// # Errors
///
/// `Memory` if memory ran out.
pub fn done(written: Result<(), AllocError>) -> Result<(), WordsFault> {
    Ok(written?)
}

/// Appends a line of a value.
///
/// # Errors
///
/// `Memory` if memory runs out.
pub fn tell<T: Display + Drop>(came: &mut String, value: T) -> Result<(), WordsFault> {
    done(writeln!(came, "> {value}"))
}

/// Appends a line of two values, with a blank between them, as `> 3 deeds`.
///
/// # Errors
///
/// `Memory` if memory runs out.
pub fn tell_two<T: Display + Drop, U: Display + Drop>(
    came: &mut String,
    first: T,
    second: U,
) -> Result<(), WordsFault> {
    done(writeln!(came, "> {first} {second}"))
}

/// Appends a line of what was found, or of `none`.
///
/// # Errors
///
/// `Memory` if memory runs out.
pub fn tell_found<T: Display + Drop>(
    came: &mut String,
    found: Option<T>,
) -> Result<(), WordsFault> {
    match found {
        Some(value) => tell(came, value),
        None => tell(came, "none"),
    }
}
