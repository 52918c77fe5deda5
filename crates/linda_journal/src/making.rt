//! A new bank on an empty disk.

ghost use Rattle.std.specs.Prelude.{◌≡◌, ◌<◌, ◌+◌, ◌^◌, ◌++◌, ◌∷◌, [], ℕ, List, length};
ghost use Rattle.std.specs.Prelude.{IfOk, OnOk, IsErrOf};
ghost use Rattle.linda_codec.specs.Formats.{number, short_number};
ghost use Rattle.linda_store_state.specs.DeedFormat.{written};
ghost use Rattle.linda_disk.specs.Runs.{Runs, takes};
ghost use Rattle.linda_journal.specs.declared.kinds.TheConstants.{OPEN, CLOSED};
ghost use Rattle.linda_journal.specs.Gate.{IsShut, inscribes};
ghost use Rattle.linda_journal.specs.Bank.{magic, behind_gate};

use crate::fault::BankFault;
use crate::gate::{lay_gate, put};
use crate::kinds::CLOSED;
use crate::limits::MIN_BYTES;
use linda_disk::Disk;
use linda_store_state::BANK_FORM;
use linda_tuple::Form;
use std::alloc::{AllocError, Global};

/// What is to come after the first gate of a new bank, which is in `BANK_FORM`, with the closed
/// gate of its journal at its end.
pub fn spell_front(alloc: Global, generation: u64, body: &[u8]) -> Result<Vec<u8>, AllocError>
    requires { length body.now < 2 ^ 32 }
    ensures { IfOk result (λ v. v.items ≡ behind_gate written generation body.now ++ CLOSED ∷ []) }
{
    let mut out = spell_heading(alloc, generation, body.len())?;
    out.extend_from_slice(body)?;
    out.push(CLOSED)?;
    Ok(out)
}

/// What a new bank, which is in `BANK_FORM`, has between its first gate and a body of so many
/// bytes. There is room for the body and the closed gate after it, so a body that is spelled there
/// is in memory once.
///
/// # Errors
///
/// `AllocError` if memory runs out.
pub fn spell_heading(alloc: Global, generation: u64, len: usize) -> Result<Vec<u8>, AllocError>
    requires { len < 2 ^ 32 }
    ensures { IfOk result (λ v. v.items
        ≡ magic written ++ (number.spell generation ++ short_number.spell len)) }
{
    let mut out = Vec::with_capacity(alloc, MIN_BYTES + len)?;
    push_heading(&mut out, generation, len)?;
    Ok(out)
}

/// Appends what a new bank, which is in `BANK_FORM`, has between its first gate and a body of so
/// many bytes. If memory runs out, a part of it may be there after the old bytes.
///
/// # Errors
///
/// `AllocError` if memory runs out.
pub fn push_heading(out: &mut Vec<u8>, generation: u64, len: usize) -> Result<(), AllocError>
    requires { len < 2 ^ 32 }
    ensures { OnOk result (out.new.items ≡ out.old.items
        ++ (magic written ++ (number.spell generation ++ short_number.spell len))) }
{
    out.extend_from_slice(&letters(BANK_FORM))?;
    out.extend_from_slice(&generation.to_be_bytes())?;
    out.extend_from_slice(&as_length(len).to_be_bytes())
}

// The letters that a bank in this form has after its first gate.
fn letters(form: Form) -> [u8; 4]
    ensures { result ≡ magic form }
{
    match form {
        Form::One => [b'L', b'N', b'D', b'1'],
        Form::Two => [b'L', b'N', b'D', b'2'],
    }
}

/// Puts these bytes, with a closed gate at their end, after an open gate at the front of an empty
/// disk.
///
/// # Errors
///
/// `Disk` if the device failed, `Memory`.
pub(crate) fn inscribe<D: Disk>(disk: &mut D, bytes: &[u8]) -> Result<(), BankFault>
    ensures done { (body : List ℕ) → bytes.now ≡ body ++ CLOSED ∷ [] → D.honest disk.old
        → OnOk result (IsShut (OPEN ∷ body) (1 + length body) (D.view disk.new)) }
    ensures long { D.honest disk.old
        → OnOk result (length bytes.now < length (D.view disk.new).seen) }
    ensures known { IsErrOf result BankFault.Full → ⊥ }
    ensures runs { Runs D.Disk (inscribes bytes.now) (takes 6) BankFault.Disk disk.old result
        disk.new }
{
    lay_gate(disk)?;
    put(disk, 0, bytes)?;
    Ok(())
}

// The length as a number of four bytes.
fn as_length(len: usize) -> u32
    requires { len < 2 ^ 32 }
    ensures { result ≡ len }
{
    len as u32
}
