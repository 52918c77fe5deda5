//! Faults of a stream's bytes that are no frames.

ghost use Rattle.std.specs.Prelude.{◌≡◌};
ghost use Rattle.linda_wire.specs.declared.fault.FrameFault.TheVariants.{Memory};
ghost use Rattle.linda_wire.specs.Offset.{offset_of};

use std::alloc::{AllocError, AllocFailed};
use thiserror::Error;

/// What is wrong with the frame at the front of a stream, or that memory ran out.
#[derive(Clone, Copy, Debug, PartialEq, Eq, Error)]
pub enum FrameFault {
    /// No memory for the value. The frame is read again by the next call.
    #[error("out of memory")]
    Memory,
    /// The length of the frame is 0.
    #[error("an empty frame")]
    EmptyFrame,
    /// The frame's length, in bytes, is above 262,144.
    #[error("a frame of {0} bytes")]
    FrameTooLong(u32),
    /// The frame spells nothing: the offset of the first byte at fault, counted from the frame's
    /// first byte (the length is at 0 to 3, the kind at 4), or the frame's end if a value is cut
    /// short.
    #[error("malformed at {0}")]
    Malformed(u32),
}

impl FrameFault {
    /// The offset that is reported to a client: that of the first byte at fault, counted from the
    /// frame's first byte, or 0 if the frame's length is at fault. `None` if memory ran out.
    pub fn offset(self) -> Option<u32>
        ensures { result ≡ offset_of self }
    {
        match self {
            FrameFault::Memory => None,
            FrameFault::EmptyFrame => Some(0),
            FrameFault::FrameTooLong(_) => Some(0),
            FrameFault::Malformed(offset) => Some(offset),
        }
    }
}

impl From<AllocError> for FrameFault {
    ghost from_gives = { λ _ fault. fault ≡ Memory };

    fn from(_error: AllocError) -> FrameFault {
        FrameFault::Memory
    }
}

impl<T: Drop> From<AllocFailed<T>> for FrameFault {
    ghost from_gives = { λ _ fault. fault ≡ Memory };

    fn from(_error: AllocFailed<T>) -> FrameFault {
        FrameFault::Memory
    }
}
