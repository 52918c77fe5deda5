//! Faults of bytes that could not be read.

ghost use Rattle.std.specs.Prelude.{◌≡◌};
ghost use Rattle.linda_codec.specs.declared.fault.ReadFault.TheVariants.{Memory};

use std::alloc::{AllocError, AllocFailed};
use thiserror::Error;

/// What is wrong with the bytes: the first fault from left to right; or that memory ran out.
///
/// Each number names the byte at fault: its offset in the answers of `get_atom`, `get_tuple` and
/// `get_template`, and the count of the bytes left, from that byte to the end, in the answers of
/// the readers that hand back the bytes after the value.
#[derive(Clone, Copy, Debug, PartialEq, Eq, Error)]
pub enum ReadFault {
    /// No memory for the value.
    #[error("out of memory")]
    Memory,
    /// The bytes end inside the value.
    #[error("the bytes end too early")]
    Short,
    /// A kind byte is none of those of atoms; among the patterns of a template, of formals and the
    /// wildcard neither.
    #[error("unknown kind at {0}")]
    BadKind(usize),
    /// A truth value's byte is neither `00` nor `01`.
    #[error("no truth value at {0}")]
    BadBool(usize),
    /// The bytes of a text, from its first, are not UTF-8.
    #[error("no UTF-8 at {0}")]
    BadText(usize),
    /// A count of fields or patterns is above the form's limit.
    #[error("too many fields at {0}")]
    TooMany(usize),
    /// A text's length, from its first byte, is above the limit. Only the second form spells such
    /// lengths.
    #[error("a text too long at {0}")]
    LongText(usize),
}

impl From<AllocError> for ReadFault {
    ghost from_gives = { λ _ fault. fault ≡ Memory };

    fn from(_error: AllocError) -> ReadFault {
        ReadFault::Memory
    }
}

impl<T: Drop> From<AllocFailed<T>> for ReadFault {
    ghost from_gives = { λ _ fault. fault ≡ Memory };

    fn from(_error: AllocFailed<T>) -> ReadFault {
        ReadFault::Memory
    }
}
