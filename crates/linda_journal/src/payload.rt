//! The payload of a record: its deeds, one after the other, in a form.

ghost use Rattle.std.specs.Prelude.{◌≡◌, ◌≤◌, ◌*◌, List, All, length, IfOk, IfSome, IfNone};
ghost use Rattle.std.specs.Prelude.{OnErr};
ghost use Rattle.linda_store_state.specs.declared.deed.Deed as deed;
ghost use Rattle.linda_store_state.specs.declared.limits.TheConstants.{MAX_DEED_BYTES};
ghost use Rattle.linda_journal.specs.declared.limits.TheConstants.{MAX_DEEDS, MAX_RECORDS};
ghost use Rattle.linda_journal.specs.Records as format;
ghost use Rattle.linda_journal.specs.Records.{IsRecord, IsPayloadOf, IsNoPayload};

use crate::limits::MAX_DEEDS;
use linda_codec::{Spelled, read_list};
use linda_store_state::Deed;
use linda_tuple::Form;
use std::alloc::{AllocError, Global};

/// The deeds that all of the payload spells; `None` if it does not spell the deeds of a record.
/// They are counted first, without memory.
pub(crate) fn read_payload(
    alloc: Global,
    form: Form,
    payload: &[u8],
) -> Result<Option<Vec<Deed>>, AllocError>
    ensures found { IfOk result (λ o. IfSome o (λ ds. IsRecord form ds.items
        × (payload.now ≡ format.payload form ds.items))) }
    ensures none { IfOk result (λ o. IfNone o (IsNoPayload form payload.now)) }
    // Memory runs out only if the payload spells the deeds of a record.
    ensures memory { OnErr result (IsNoPayload form payload.now → ⊥) }
{
    match count_deeds(form, payload) {
        None => Ok(None),
        Some(count) => Ok(Some(read_deeds(alloc, form, count, payload)?)),
    }
}

// How many deeds all of the payload spells; `None` if it does not spell the deeds of a record.
fn count_deeds(form: Form, payload: &[u8]) -> Option<usize>
    ensures some { IfSome result (IsPayloadOf form payload.now) }
    ensures none { IfNone result (IsNoPayload form payload.now) }
{
    let mut count = 0;
    let mut rest = payload;
    while !rest.is_empty() {
        if count >= MAX_DEEDS {
            return None;
        }
        let Ok(after) = Deed::skip(form, rest) else {
            return None;
        };
        count += 1;
        rest = after;
    }
    if count == 0 {
        return None;
    }
    Some(count)
}

// The deeds of a payload that spells so many.
fn read_deeds(
    alloc: Global,
    form: Form,
    count: usize,
    payload: &[u8],
) -> Result<Vec<Deed>, AllocError>
    ensures { (ds : List deed.Deed) → IsRecord form ds → payload.now ≡ format.payload form ds
        → length ds ≡ count
        → IfOk result (λ v. v.items ≡ ds) }
{
    match read_list(alloc, form, count, payload) {
        Ok((deeds, _rest)) => Ok(deeds),
        Err(_) => Err(AllocError),
    }
}

/// How many bytes the deeds spell in the form; `None` if one of them has no spelling there.
pub(crate) fn payload_len(form: Form, deeds: &[Deed]) -> Option<usize>
    requires { length deeds.now ≤ MAX_DEEDS * MAX_RECORDS }
    ensures exact { IfSome result (λ len. len ≡ length (format.payload form deeds.now)) }
    ensures short { IfSome result (λ len. len ≤ MAX_DEED_BYTES * length deeds.now) }
    ensures suit { IfSome result (λ _. All (format.SuitsForm form) deeds.now) }
    ensures spelled { IfSome result (λ _. All (format.FitsDeed form) deeds.now) }
    ensures none { IfNone result (All (format.SuitsForm form) deeds.now → ⊥) }
{
    let mut len = 0;
    for deed in deeds {
        if !deed.fits(form) {
            return None;
        }
        len += deed.len(form);
    }
    Some(len)
}
