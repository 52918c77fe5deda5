//! Faults of a text of an event.

ghost use Rattle.std.specs.Prelude.{◌≡◌};
ghost use Rattle.linda_text.specs.declared.fault.TextFault.TheVariants.{Memory};
ghost use Rattle.linda_shell_text.specs.declared.fault.EventTextFault.TheVariants.{Text};

use linda_text::TextFault;
use std::alloc::{AllocError, AllocFailed};
use thiserror::Error;

/// What is wrong with a text of an event: the first fault from the left; or that memory ran out.
#[derive(Clone, Copy, Debug, PartialEq, Eq, Error)]
pub enum EventTextFault {
    /// A fault of texts, as `SyntaxAt` with the offset in bytes, or `Memory`.
    #[error("{0}")]
    Text(TextFault),
    /// More than 1,000 nodes are nested.
    #[error("more than 1000 nested nodes")]
    TooManyNested,
}

impl From<TextFault> for EventTextFault {
    ghost from_gives = { λ text fault. fault ≡ Text text };

    fn from(fault: TextFault) -> EventTextFault {
        EventTextFault::Text(fault)
    }
}

impl From<AllocError> for EventTextFault {
    ghost from_gives = { λ _ fault. fault ≡ Text Memory };

    fn from(_error: AllocError) -> EventTextFault {
        EventTextFault::Text(TextFault::Memory)
    }
}

impl<T: Drop> From<AllocFailed<T>> for EventTextFault {
    ghost from_gives = { λ _ fault. fault ≡ Text Memory };

    fn from(_error: AllocFailed<T>) -> EventTextFault {
        EventTextFault::Text(TextFault::Memory)
    }
}
