//! Faults of a server on a folder.

ghost use Rattle.std.specs.Prelude.{◌≡◌};
ghost use Rattle.linda_serve.specs.Faults.{fault_of_disk, fault_of_open, fault_of_report};
ghost use Rattle.linda_serve.specs.Faults.{served_as};
ghost use Rattle.linda_serve.specs.declared.serving.fault.ServingFault.TheVariants.{Memory as MemoryFault};

use linda_disk::DiskFault;
use linda_inspect::InspectFault;
use linda_net::SharedFault;
use linda_server::OpenFault;
use std::alloc::{AllocError, AllocFailed};
use thiserror::Error;

/// Why a server on a folder does not serve, or serves no more.
#[derive(Clone, Copy, Debug, PartialEq, Eq, Error)]
pub enum ServingFault {
    /// Neither bank of the folder is one.
    #[error("store: no store")]
    NoStore,
    /// A bank is damaged at this offset: the right one, or the left one.
    #[error("store: damaged {} {offset}", if *right {"right"} else {"left"})]
    Damaged { right: bool, offset: usize },
    /// The folder or a bank in it cannot be opened, or a device failed.
    #[error("store: disk")]
    Disk,
    /// Another server has the folder open.
    #[error("store: in use")]
    InUse,
    /// The server went down.
    #[error("store: down")]
    Down,
    /// Memory ran out.
    #[error("memory")]
    Memory,
    /// The port cannot be listened on, or the output failed.
    #[error("io")]
    Io,
}

impl From<OpenFault> for ServingFault {
    ghost from_gives = { λ fault told. told ≡ fault_of_open fault };

    fn from(fault: OpenFault) -> ServingFault {
        match fault {
            OpenFault::NoStore => ServingFault::NoStore,
            OpenFault::Damaged { right, offset } => ServingFault::Damaged { right, offset },
            OpenFault::Memory => ServingFault::Memory,
            OpenFault::NotEmpty => ServingFault::Disk,
            OpenFault::LimitRange => ServingFault::Disk,
            OpenFault::Disk => ServingFault::Disk,
        }
    }
}

impl From<InspectFault> for ServingFault {
    ghost from_gives = { λ fault told. told ≡ fault_of_report fault };

    fn from(fault: InspectFault) -> ServingFault {
        match fault {
            InspectFault::NoStore => ServingFault::NoStore,
            InspectFault::Damaged { right, offset } => ServingFault::Damaged { right, offset },
            InspectFault::Disk => ServingFault::Disk,
            InspectFault::Memory => ServingFault::Memory,
            InspectFault::Io => ServingFault::Io,
        }
    }
}

impl From<DiskFault> for ServingFault {
    ghost from_gives = { λ fault told. told ≡ fault_of_disk fault };

    fn from(fault: DiskFault) -> ServingFault {
        match fault {
            DiskFault::Device => ServingFault::Disk,
            DiskFault::Memory => ServingFault::Memory,
        }
    }
}

impl From<AllocError> for ServingFault {
    ghost from_gives = { λ _ told. told ≡ MemoryFault };

    fn from(_error: AllocError) -> ServingFault {
        ServingFault::Memory
    }
}

impl<T: Drop> From<AllocFailed<T>> for ServingFault {
    ghost from_gives = { λ _ told. told ≡ MemoryFault };

    fn from(_error: AllocFailed<T>) -> ServingFault {
        ServingFault::Memory
    }
}

/// How serving ends: each fault of a server that is shared says that it went down.
pub(super) fn served(ended: Result<(), SharedFault>) -> Result<(), ServingFault>
    ensures { result ≡ served_as ended }
{
    match ended {
        Ok(()) => Ok(()),
        Err(_) => Err(ServingFault::Down),
    }
}
