//! Readings of a tuple or an event: how far a text was read.

use linda_shell_text::{EventTextFault, read_event};
use linda_text::{TextFault, read_tuple};
use std::alloc::{AllocError, Global};

/// What a text is to be.
#[derive(Clone, Copy)]
pub(crate) enum ReadingKind {
    Tuple,
    Event,
}

/// What reading a text came to.
#[derive(Clone, Copy)]
pub(crate) enum Reading {
    /// It is whole.
    Whole,
    /// It goes wrong after so many bytes, or ends there too early.
    At(usize),
    /// It is too large in some way.
    Beyond(&'static str),
}

/// Reads a text as what it is to be.
///
/// # Errors
///
/// `AllocError` if memory runs out.
pub(crate) fn read(alloc: Global, kind: ReadingKind, text: &str) -> Result<Reading, AllocError> {
    match kind {
        ReadingKind::Tuple => match read_tuple(alloc, text) {
            Ok(_) => Ok(Reading::Whole),
            Err(fault) => of_text(fault),
        },
        ReadingKind::Event => match read_event(alloc, text) {
            Ok(_) => Ok(Reading::Whole),
            Err(EventTextFault::Text(fault)) => of_text(fault),
            Err(EventTextFault::TooManyNested) => {
                Ok(Reading::Beyond("more than 1,000 nested nodes"))
            }
        },
    }
}

// What a fault of a text says.
fn of_text(fault: TextFault) -> Result<Reading, AllocError> {
    match fault {
        TextFault::Memory => Err(AllocError),
        TextFault::SyntaxAt(at) => Ok(Reading::At(at)),
        TextFault::TooManyFields => Ok(Reading::Beyond("more than 32 fields")),
        TextFault::TextTooLong => Ok(Reading::Beyond("a text of more than 4,095 bytes")),
        TextFault::NumberRange => Ok(Reading::Beyond("an integer of more than 64 bits")),
    }
}
