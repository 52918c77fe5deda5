//! A record: one deed or more that were done together, after one gate, in a form.

ghost use Rattle.std.specs.Prelude.{◌≡◌, ◌++◌, ◌+◌, ◌<◌, ◌≤◌, ◌*◌, ◌^◌, All, length, take};
ghost use Rattle.std.specs.Prelude.{drop, IfOk, IfSome, IfNone, OnOk};
ghost use Rattle.linda_codec.specs.declared.limits.TheConstants.{SHORT_NUMBER_BYTES};
ghost use Rattle.linda_journal.specs.declared.limits.TheConstants.{MAX_DEEDS, MAX_RECORDS};
ghost use Rattle.linda_journal.specs.Records.{FitsDeed, IsRecord, record_body, spell_record};
ghost use Rattle.linda_journal.specs.Records.{measured, AreRecords, AreSpelled, IsUnspelled};
ghost use Rattle.linda_journal.specs.Journal.{IsNoRecord};

use crate::kinds::{CLOSED, OPEN};
use crate::limits::MAX_DEEDS;
use crate::payload::read_payload;
use crate::size::records_len;
use linda_codec::{SHORT_NUMBER_BYTES, push_list, read_u32};
use linda_store_state::Deed;
use linda_tuple::Form;
use std::alloc::{AllocError, Global};

/// A record of a journal.
#[derive(Debug, Drop)]
pub struct Record {
    /// The offset of its gate.
    pub gate: usize,
    /// What was done, in order.
    pub deeds: Vec<Deed>,
}

/// The deeds of the record after an open gate, and the bytes from the next gate on. `None` if no
/// record is there with the byte of a gate after it.
pub(crate) fn read_record(
    alloc: Global,
    form: Form,
    behind: &[u8],
) -> Result<Option<(Vec<Deed>, &[u8])>, AllocError>
    ensures found { IfOk result (λ o. IfSome o (λ x. IsRecord form x.0.items
        × (behind.now ≡ record_body form x.0.items ++ x.1.now) × (0 < length x.1.now))) }
    ensures none { IfOk result (λ o. IfNone o (IsNoRecord form behind.now)) }
{
    match read_u32(behind) {
        Err(_) => Ok(None),
        Ok((len, rest)) => {
            let len = len as usize;
            if rest.len() <= len {
                return Ok(None);
            }
            let (payload, after) = rest.split_at(len);
            match read_payload(alloc, form, payload)? {
                None => Ok(None),
                Some(deeds) => Ok(Some((deeds, after))),
            }
        }
    }
}

/// The records of these deeds, each but the last of as many as a record may have, and a closed gate
/// after them. The first byte is the gate of the first record, which is open. The bytes of the
/// records are counted before, so that memory is taken once.
pub(crate) fn spell_all(
    alloc: Global,
    form: Form,
    deeds: &[Deed],
    len: usize,
) -> Result<Vec<u8>, AllocError>
    requires some { 1 ≤ length deeds.now }
    requires fits { All (FitsDeed form) deeds.now }
    requires short { len < 2 ^ 40 }
    ensures { IfOk result (λ v. AreSpelled form deeds.now v.items) }
{
    let mut out = spell_each(alloc, form, deeds, len)?;
    out.push(CLOSED)?;
    Ok(out)
}

/// The records of these deeds in the form, as a bank's journal has them, without the closed gate
/// after them; `None` if one of the deeds has no spelling in the form.
///
/// # Errors
///
/// `AllocError` if memory runs out.
pub fn spell_deeds(alloc: Global, form: Form, deeds: &[Deed]) -> Result<Option<Vec<u8>>, AllocError>
    requires { length deeds.now ≤ MAX_DEEDS * MAX_RECORDS }
    ensures records { IfOk result (λ o. IfSome o (λ v. AreRecords form deeds.now v.items)) }
    ensures none { IfOk result (λ o. IfNone o (IsUnspelled form deeds.now)) }
{
    match records_len(form, deeds) {
        None => Ok(None),
        Some(len) => Ok(Some(spell_each(alloc, form, deeds, len)?)),
    }
}

// The records of these deeds, and room for so many bytes and one more.
fn spell_each(alloc: Global, form: Form, deeds: &[Deed], len: usize) -> Result<Vec<u8>, AllocError>
    requires fits { All (FitsDeed form) deeds.now }
    requires short { len < 2 ^ 40 }
    ensures { IfOk result (λ v. AreRecords form deeds.now v.items) }
{
    let mut out = Vec::with_capacity(alloc, len + 1)?;
    let mut rest = deeds;
    while !rest.is_empty() {
        let (batch, after) = rest.split_at(first_of(rest.len()));
        push_record(form, &mut out, batch)?;
        rest = after;
    }
    Ok(out)
}

/// What comes after the gate with which the bytes begin.
pub(crate) fn behind_gate(bytes: &[u8]) -> &[u8]
    ensures { result.now ≡ drop 1 bytes.now }
{
    match bytes {
        [_, behind @ ..] => behind,
        [] => bytes,
    }
}

// How many of so many deeds the next record has.
fn first_of(count: usize) -> usize
    ensures some { 0 < count → 0 < result }
    ensures within { result ≤ count }
    ensures few { result ≤ MAX_DEEDS }
    ensures all { result < MAX_DEEDS → result ≡ count }
{
    if count < MAX_DEEDS { count } else { MAX_DEEDS }
}

// Pushes the record of these deeds.
fn push_record(form: Form, out: &mut Vec<u8>, deeds: &[Deed]) -> Result<(), AllocError>
    requires { IsRecord form deeds.now }
    ensures { OnOk result (out.new.items ≡ out.old.items ++ spell_record form deeds.now) }
{
    out.push(OPEN)?;
    let start = out.len();
    out.extend_from_slice(&[0; SHORT_NUMBER_BYTES])?;
    push_list(form, out, deeds)?;
    set_length(out.as_mut_slice(), start);
    Ok(())
}

// Writes the length of the payload that ends the bytes over the bytes before it, at `start`.
fn set_length(bytes: &mut [u8], start: usize)
    requires room { start + SHORT_NUMBER_BYTES ≤ length bytes.old }
    requires short { length bytes.old < start + SHORT_NUMBER_BYTES + 2 ^ 32 }
    ensures { bytes.new
        ≡ take start bytes.old ++ measured (drop (start + SHORT_NUMBER_BYTES) bytes.old) }
{
    let len = (bytes.len() - (start + SHORT_NUMBER_BYTES)) as u32;
    bytes[start..start + SHORT_NUMBER_BYTES].copy_from_slice(&len.to_be_bytes());
}
