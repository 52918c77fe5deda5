//! Calls that are on record, done once more.

ghost use Rattle.std.specs.Prelude.{◌≡◌, ◌≤◌, ℕ, List, length, take, drop, reverse, IfOk, OnOk};
ghost use Rattle.std.specs.Prelude.{OnErr};
ghost use Rattle.linda_disk.specs.DiskHistory as history;

use crate::call::DeviceCall;
use crate::overlay::overlay;
use std::alloc::{AllocError, Global};

/// The bytes after these calls, the first of them first.
pub(crate) fn redone(
    alloc: Global,
    first: &[u8],
    calls: &[DeviceCall],
) -> Result<Vec<u8>, AllocError>
    ensures { IfOk result (λ file. file.items
        ≡ history.content_from first.now (reverse calls.now)) }
{
    let mut file = Vec::from_slice(alloc, first)?;
    for call in calls {
        redo(&mut file, call)?;
    }
    Ok(file)
}

/// Does the call in full.
///
/// # Errors
///
/// `AllocError` if memory runs out, and then the file is as before.
pub(crate) fn redo(file: &mut Vec<u8>, call: &DeviceCall) -> Result<(), AllocError>
    ensures ok { OnOk result (file.new.items ≡ history.done call.now file.old.items) }
    ensures err { OnErr result (file.new.items ≡ file.old.items) }
{
    match call {
        DeviceCall::Write(at, bytes) => overlay(file, *at, bytes.as_slice())?,
        DeviceCall::Cut(len) => file.truncate(*len),
        DeviceCall::Sync => {}
    }
    Ok(())
}

/// Does these calls, the first of them first, with this byte in place of each that they wrote, and
/// no cut.
pub(crate) fn fill_all(
    alloc: Global,
    file: &mut Vec<u8>,
    calls: &[DeviceCall],
    byte: u8,
) -> Result<(), AllocError>
    ensures { OnOk result (file.new.items ≡ history.fill_all byte calls.now file.old.items) }
{
    for call in calls {
        fill(alloc, file, call, byte)?;
    }
    Ok(())
}

/// Does the call with this byte in place of each that it wrote, and no cut.
fn fill(alloc: Global, file: &mut Vec<u8>, call: &DeviceCall, byte: u8) -> Result<(), AllocError>
    ensures { OnOk result (file.new.items ≡ history.fill byte call.now file.old.items) }
{
    if let DeviceCall::Write(at, bytes) = call {
        let filling = vec![in alloc; byte; bytes.as_slice().len()]?;
        overlay(file, *at, &filling)?;
    }
    Ok(())
}

/// How many calls there are up to the last sync, which is one of them: 0 if there was none.
pub(crate) fn settled_len(calls: &[DeviceCall]) -> usize
    ensures within { result ≤ length calls.now }
    ensures synced { (first : List ℕ) → history.content_from first (reverse (take result calls.now))
        ≡ history.synced_from first (reverse calls.now) }
    ensures filled { (b : ℕ) (first : List ℕ) → history.fill_all b (drop result calls.now)
        (history.content_from first (reverse (take result calls.now)))
        ≡ history.filled_from b first (reverse calls.now) }
{
    let mut len = calls.len();
    while len > 0 && !matches!(&calls[len - 1], DeviceCall::Sync) {
        len -= 1;
    }
    len
}
