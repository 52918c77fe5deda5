//! Whole front of a damaged bank.

ghost use Rattle.std.specs.Prelude.{◌≡◌, ◌∷◌, ◌++◌, [], IfOk, IfSome};
ghost use Rattle.linda_store_state.specs.State.{IsState};
ghost use Rattle.linda_snap.specs.Stands.{StandsOn};
ghost use Rattle.linda_journal.specs.declared.kinds.TheConstants.{CLOSED};
ghost use Rattle.linda_inspect.specs.Whole.{IsOnFront};

use crate::fault::OutputFault;
use linda_bag::IndexBag;
use linda_disk::MemDisk;
use linda_journal::{CLOSED, MIN_BYTES};
use linda_snap::{ChoiceFault, Chosen, choose_bank};
use std::alloc::{AllocError, Global};

// How often a prefix is cut off: at a record that is badly spelled, and then at one with a deed
// that is not allowed.
const CUTS: usize = 2;

/// The bank that is whole before a damage at this offset: the bytes before it, with a closed gate
/// after them. If these are damaged in their turn, those before that. `None` if no record or
/// snapshot is whole.
///
/// # Errors
///
/// `Memory`.
pub(crate) fn whole_before(
    alloc: Global,
    bytes: &[u8],
    offset: usize,
    limit: usize,
) -> Result<Option<Chosen<IndexBag, MemDisk>>, OutputFault>
    ensures front { IfOk result (λ found. IfSome found (λ c.
        IsOnFront bytes.now offset c.bank.generation c.state)) }
    ensures ranges { IfOk result (λ found. IfSome found (λ c. IsState c.state)) }
{
    let mut end = offset;
    for _ in 0..CUTS {
        if end <= MIN_BYTES || bytes.len() < end || offset < end {
            return Ok(None);
        }
        match open_front(alloc, &bytes[..end], limit) {
            Ok(chosen) => return Ok(Some(chosen)),
            Err(ChoiceFault::Damaged { right: _, offset }) => end = offset,
            Err(ChoiceFault::Memory) => return Err(OutputFault::Memory),
            Err(ChoiceFault::NoStore) => return Ok(None),
            Err(ChoiceFault::Disk) => return Ok(None),
        }
    }
    Ok(None)
}

// The bank that the bytes are with a closed gate after them.
fn open_front(
    alloc: Global,
    front: &[u8],
    limit: usize,
) -> Result<Chosen<IndexBag, MemDisk>, ChoiceFault>
    ensures front { IfOk result (λ c.
        StandsOn (front.now ++ CLOSED ∷ []) c.bank.generation c.state) }
    ensures ranges { IfOk result (λ c. IsState c.state) }
{
    match closed(alloc, front) {
        Ok(bytes) => open_alone(alloc, bytes, limit),
        Err(AllocError) => Err(ChoiceFault::Memory),
    }
}

// The bytes, and a closed gate after them.
fn closed(alloc: Global, front: &[u8]) -> Result<Vec<u8>, AllocError>
    ensures { IfOk result (λ bytes. bytes.items ≡ front.now ++ CLOSED ∷ []) }
{
    let mut bytes = Vec::from_slice(alloc, front)?;
    bytes.push(CLOSED)?;
    Ok(bytes)
}

// The bank that the bytes are, beside an empty disk.
fn open_alone(
    alloc: Global,
    bytes: Vec<u8>,
    limit: usize,
) -> Result<Chosen<IndexBag, MemDisk>, ChoiceFault>
    ensures stands { IfOk result (λ c. StandsOn bytes.items c.bank.generation c.state) }
    ensures ranges { IfOk result (λ c. IsState c.state) }
{
    let disk = MemDisk::from_bytes(alloc, bytes)?;
    match choose_bank(alloc, disk, MemDisk::new(alloc), limit) {
        Ok(chosen) => Ok(chosen),
        Err((fault, _, _)) => Err(fault),
    }
}
