//! Faults of an inspection: why no bank is in use, or why it was not reported to the end.

ghost use Rattle.std.specs.Prelude.{◌≡◌};
ghost use Rattle.linda_inspect.specs.Faults.{fault_of_choice, fault_of_disk, fault_of_output};
ghost use Rattle.linda_inspect.specs.declared.fault.OutputFault.TheVariants.{Memory};

use linda_disk::DiskFault;
use linda_snap::ChoiceFault;
use std::alloc::{AllocError, AllocFailed};
use thiserror::Error;

/// Why a server would not open two banks, or why a report did not come to its end.
#[derive(Clone, Copy, Debug, PartialEq, Eq, Error)]
pub enum InspectFault {
    /// Neither is a bank, and one has bytes.
    #[error("no store")]
    NoStore,
    /// A bank is damaged at this offset: the right one, or the left one.
    #[error("damaged {} {offset}", if *right {"right"} else {"left"})]
    Damaged { right: bool, offset: usize },
    /// A disk in memory failed, which none does.
    #[error("disk")]
    Disk,
    /// Memory ran out.
    #[error("memory")]
    Memory,
    /// The output failed.
    #[error("io")]
    Io,
}

/// Why a report did not come to its end.
#[derive(Clone, Copy, Debug, PartialEq, Eq, Error)]
pub enum OutputFault {
    /// Memory ran out.
    #[error("memory")]
    Memory,
    /// The output failed.
    #[error("io")]
    Io,
}

impl From<OutputFault> for InspectFault {
    ghost from_gives = { λ fault told. told ≡ fault_of_output fault };

    fn from(fault: OutputFault) -> InspectFault {
        match fault {
            OutputFault::Memory => InspectFault::Memory,
            OutputFault::Io => InspectFault::Io,
        }
    }
}

impl From<DiskFault> for InspectFault {
    ghost from_gives = { λ fault told. told ≡ fault_of_disk fault };

    fn from(fault: DiskFault) -> InspectFault {
        match fault {
            DiskFault::Device => InspectFault::Disk,
            DiskFault::Memory => InspectFault::Memory,
        }
    }
}

impl From<AllocError> for OutputFault {
    ghost from_gives = { λ _ fault. fault ≡ Memory };

    fn from(_error: AllocError) -> OutputFault {
        OutputFault::Memory
    }
}

impl<T: Drop> From<AllocFailed<T>> for OutputFault {
    ghost from_gives = { λ _ fault. fault ≡ Memory };

    fn from(_error: AllocFailed<T>) -> OutputFault {
        OutputFault::Memory
    }
}

/// What is returned if no bank was chosen.
pub(crate) fn of_choice(fault: ChoiceFault) -> InspectFault
    ensures { result ≡ fault_of_choice fault }
{
    match fault {
        ChoiceFault::NoStore => InspectFault::NoStore,
        ChoiceFault::Damaged { right, offset } => InspectFault::Damaged { right, offset },
        ChoiceFault::Disk => InspectFault::Disk,
        ChoiceFault::Memory => InspectFault::Memory,
    }
}
