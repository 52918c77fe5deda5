//! Faults of a bank's calls.

ghost use Rattle.std.specs.Prelude.{◌≡◌, if◌then◌else◌};
ghost use Rattle.linda_disk.specs.declared.fault.DiskFault as device;
ghost use Rattle.linda_journal.specs.declared.fault.BankFault.TheVariants.{Memory};
ghost use Rattle.linda_journal.specs.Faults.{fault_of_disk};

use linda_disk::DiskFault;
use std::alloc::{AllocError, AllocFailed};
use thiserror::Error;

/// What a call of a bank returns if it was not done.
#[derive(Clone, Copy, Debug, PartialEq, Eq, Error)]
pub enum BankFault {
    /// An earlier `append` was cut off by its disk, and the bank is to be opened again.
    #[error("the bank is to be opened again")]
    Spent,
    /// The bank would pass its limit, or one of the record's deeds has no spelling in the bank's
    /// form.
    #[error("the bank is full")]
    Full,
    /// The disk holds no bank: fewer bytes than a bank has, or a first gate that is closed.
    #[error("no bank")]
    NoBank,
    /// The bank is damaged at this offset: 1 if other letters or generation 0 follow its first
    /// gate, 17 if its body is cut short, else the offset of the first open gate with no record
    /// after it.
    #[error("damaged at {0}")]
    Damaged(usize),
    /// The device failed, which it counts.
    #[error("the device failed")]
    Disk,
    /// No memory.
    #[error("out of memory")]
    Memory,
}

impl From<AllocError> for BankFault {
    ghost from_gives = { λ _ fault. fault ≡ Memory };

    fn from(_error: AllocError) -> BankFault {
        BankFault::Memory
    }
}

impl<T: Drop> From<AllocFailed<T>> for BankFault {
    ghost from_gives = { λ _ fault. fault ≡ Memory };

    fn from(_error: AllocFailed<T>) -> BankFault {
        BankFault::Memory
    }
}

impl From<DiskFault> for BankFault {
    ghost from_gives = { λ fault told. told ≡ fault_of_disk fault };

    fn from(fault: DiskFault) -> BankFault {
        match fault {
            DiskFault::Device => BankFault::Disk,
            DiskFault::Memory => BankFault::Memory,
        }
    }
}
