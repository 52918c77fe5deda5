//! Faults of a disk's calls.

ghost use Rattle.std.specs.Prelude.{◌≡◌};
ghost use Rattle.linda_disk.specs.declared.fault.DiskFault.TheVariants.{Memory};

use std::alloc::{AllocError, AllocFailed};
use thiserror::Error;

/// What a call of a disk returns if it was not done.
#[derive(Clone, Copy, Debug, PartialEq, Eq, Error)]
pub enum DiskFault {
    /// The device failed, which it counts.
    #[error("the device failed")]
    Device,
    /// No memory for what the call keeps.
    #[error("out of memory")]
    Memory,
}

impl From<AllocError> for DiskFault {
    ghost from_gives = { λ _ fault. fault ≡ Memory };

    fn from(_error: AllocError) -> DiskFault {
        DiskFault::Memory
    }
}

impl<T: Drop> From<AllocFailed<T>> for DiskFault {
    ghost from_gives = { λ _ fault. fault ≡ Memory };

    fn from(_error: AllocFailed<T>) -> DiskFault {
        DiskFault::Memory
    }
}
