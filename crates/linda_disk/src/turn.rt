//! Turns of a disk's calls: what each returns, and how it counts.

ghost use Rattle.std.specs.Prelude.{◌≡◌, ◌≢◌, ◌≤◌, ◌+◌, ◌^◌, if◌then◌else◌, IsTrue, IfOk, IfErr};
ghost use Rattle.std.specs.Prelude.{OnErr};
ghost use Rattle.linda_disk.specs.DiskHistory.{DiskHistory, after};
ghost use Rattle.linda_disk.specs.MemDisk.{answer_at, history_at, failures_at};

use crate::call::DeviceCall;
use crate::fault::DiskFault;
use crate::trouble::Turn;

/// What a call returns at this turn.
pub(crate) fn told(turn: Turn) -> Result<(), DiskFault>
    ensures { result ≡ answer_at turn }
{
    match turn {
        Turn::Works => Ok(()),
        Turn::Stops => Err(DiskFault::Device),
        Turn::Fails => Err(DiskFault::Device),
    }
}

/// Whether a call is done at this turn: if the machine stops inside a sync, it has not happened.
pub(crate) fn is_done(turn: Turn, call: &DeviceCall) -> bool
    ensures history { (h : DiskHistory)
        → history_at turn call.now h ≡ (if result then after call.now h else h) }
    ensures fails { IsTrue result → turn ≢ Turn.Fails }
{
    match turn {
        Turn::Works => true,
        Turn::Stops => !matches!(call, DeviceCall::Sync),
        Turn::Fails => false,
    }
}

/// The count of failures after one more. A disk that has failed 2^64 - 1 times fails no more: it
/// answers `Memory` in place of it, and the count never wraps.
pub(crate) fn one_more(failures: u64) -> Result<u64, DiskFault>
    ensures ok { IfOk result (λ n. n ≡ failures + 1) }
    ensures err { IfErr result (λ fault. fault ≡ DiskFault.Memory) }
    ensures full { OnErr result (2 ^ 64 ≤ failures + 1) }
{
    failures.checked_add(1).ok_or(DiskFault::Memory)
}

/// The count of failures after a call at this turn.
pub(crate) fn counted(failures: u64, turn: Turn) -> Result<u64, DiskFault>
    ensures ok { IfOk result (λ n. n ≡ failures_at turn failures) }
    ensures err { IfErr result (λ fault. fault ≡ DiskFault.Memory) }
    ensures full { OnErr result (2 ^ 64 ≤ failures + 1) }
{
    match turn {
        Turn::Works => Ok(failures),
        Turn::Stops => one_more(failures),
        Turn::Fails => one_more(failures),
    }
}
