//! Faults of a text.

ghost use Rattle.std.specs.Prelude.{◌≡◌};
ghost use Rattle.linda_text.specs.declared.fault.TextFault.TheVariants.{Memory};

use std::alloc::{AllocError, AllocFailed};
use thiserror::Error;

/// What is wrong with a text: the first fault from the left; or that memory ran out.
#[derive(Clone, Copy, Debug, PartialEq, Eq, Error)]
pub enum TextFault {
    /// No memory for the value.
    #[error("out of memory")]
    Memory,
    /// No text goes on with the character there, or the text ends there too early. The number is
    /// its offset in bytes; of `split_..` and `skip_..` it counts the bytes from there to the end.
    #[error("no text goes on at {0}")]
    SyntaxAt(usize),
    /// A comma comes after the 32nd field.
    #[error("more than 32 fields")]
    TooManyFields,
    /// A string says more than 4,095 bytes.
    #[error("a text of more than 4,095 bytes")]
    TextTooLong,
    /// An integer needs more than 64 bits.
    #[error("an integer out of range")]
    NumberRange,
}

impl From<AllocError> for TextFault {
    ghost from_gives = { λ _ fault. fault ≡ Memory };

    fn from(_error: AllocError) -> TextFault {
        TextFault::Memory
    }
}

impl<T: Drop> From<AllocFailed<T>> for TextFault {
    ghost from_gives = { λ _ fault. fault ≡ Memory };

    fn from(_error: AllocFailed<T>) -> TextFault {
        TextFault::Memory
    }
}
