//! Faults of words that could not be read.

use linda_text::TextFault;
use std::alloc::{AllocError, AllocFailed};
use thiserror::Error;

/// Why words could not be read.
#[derive(Clone, Copy, Debug, PartialEq, Eq, Error)]
pub enum WordsFault {
    /// No memory for what they say.
    #[error("out of memory")]
    Memory,
    /// They say nothing that is known here, or not in the one way in which it is written.
    #[error("no such words")]
    Unknown,
}

impl From<AllocError> for WordsFault {
    fn from(_error: AllocError) -> WordsFault {
        WordsFault::Memory
    }
}

impl<T: Drop> From<AllocFailed<T>> for WordsFault {
    fn from(_error: AllocFailed<T>) -> WordsFault {
        WordsFault::Memory
    }
}

impl From<TextFault> for WordsFault {
    fn from(fault: TextFault) -> WordsFault {
        match fault {
            TextFault::Memory => WordsFault::Memory,
            _ => WordsFault::Unknown,
        }
    }
}
