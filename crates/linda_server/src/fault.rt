//! Faults of a server: why it was not made or opened, and why it did not serve.

ghost use Rattle.std.specs.Prelude.{◌≡◌, ◌↔◌, ◌≢◌};

use linda_disk::DiskFault;
use linda_store::NodeFault;
use thiserror::Error;

/// Why two disks were not made or opened as a server.
#[derive(Clone, Copy, Debug, PartialEq, Eq, Error)]
pub enum OpenFault {
    /// A disk that is to hold a new server holds something.
    #[error("a disk is not empty")]
    NotEmpty,
    /// The limit of a bank is below 34 bytes, or above 1,073,741,824.
    #[error("the limit is out of range")]
    LimitRange,
    /// Neither disk holds a bank.
    #[error("no store")]
    NoStore,
    /// A bank is damaged at this offset.
    #[error("the {} bank is damaged at {offset}", if *right {"right"} else {"left"})]
    Damaged {
        /// Whether it is the right one.
        right: bool,
        /// The offset of the damage.
        offset: usize,
    },
    /// A device failed, which it counts.
    #[error("a device failed")]
    Disk,
    /// No memory.
    #[error("out of memory")]
    Memory,
}

/// Why a server did not serve.
#[derive(Clone, Copy, Debug, PartialEq, Eq, Error)]
pub enum ServeFault {
    /// The bank would grow beyond its limit. Nothing changed.
    #[error("full")]
    Full,
    /// The server was down before.
    #[error("down")]
    Down,
    /// A device failed, which it counts. The server is down.
    #[error("a device failed")]
    Disk,
    /// No memory. The server is down.
    #[error("out of memory")]
    Memory,
}

/// What a server returns for a fault of its disk.
pub(crate) fn of_disk(fault: DiskFault) -> ServeFault
    ensures device { (result ≡ ServeFault.Disk) ↔ (fault ≡ DiskFault.Device) }
    ensures memory { (result ≡ ServeFault.Memory) ↔ (fault ≡ DiskFault.Memory) }
{
    match fault {
        DiskFault::Device => ServeFault::Disk,
        DiskFault::Memory => ServeFault::Memory,
    }
}

/// What a node answers for it.
pub(crate) fn node_fault(fault: ServeFault) -> NodeFault
    ensures full { (result ≡ NodeFault.Full) ↔ (fault ≡ ServeFault.Full) }
    ensures down { (result ≡ NodeFault.Down) ↔ (fault ≢ ServeFault.Full) }
{
    match fault {
        ServeFault::Full => NodeFault::Full,
        ServeFault::Down | ServeFault::Disk | ServeFault::Memory => NodeFault::Down,
    }
}
