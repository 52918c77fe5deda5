//! Sizes of records: how many deeds take, and their bytes in a form, counted without spelling them.

ghost use Rattle.std.specs.Prelude.{◌≡◌, ◌<◌, ◌≤◌, ◌*◌, ◌^◌, All, length, IfSome, IfNone};
ghost use Rattle.linda_journal.specs.declared.limits.TheConstants.{MAX_DEEDS, MAX_RECORDS};
ghost use Rattle.linda_journal.specs.Records as format;

use crate::limits::{MAX_DEEDS, RECORD_HEAD};
use crate::payload::payload_len;
use linda_store_state::Deed;
use linda_tuple::Form;

/// How many records so many deeds take, if each but the last has as many as a record may have.
pub fn records_for(deeds: usize) -> usize
    requires { deeds ≤ MAX_DEEDS * MAX_RECORDS }
    ensures exact { result ≡ format.records_for deeds }
    ensures few { result ≤ MAX_RECORDS }
{
    (deeds + (MAX_DEEDS - 1)) / MAX_DEEDS
}

/// How many bytes the records of these deeds spell, their gates among them; `None` if one of the
/// deeds has no spelling in the form.
pub(crate) fn records_len(form: Form, deeds: &[Deed]) -> Option<usize>
    requires { length deeds.now ≤ MAX_DEEDS * MAX_RECORDS }
    ensures exact { IfSome result (λ len. len ≡ format.bytes_for (length deeds.now)
        (length (format.payload form deeds.now))) }
    ensures short { IfSome result (λ len. len < 2 ^ 40) }
    ensures suit { IfSome result (λ _. All (format.SuitsForm form) deeds.now) }
    ensures spelled { IfSome result (λ _. All (format.FitsDeed form) deeds.now) }
    ensures none { IfNone result (All (format.SuitsForm form) deeds.now → ⊥) }
{
    match payload_len(form, deeds) {
        None => None,
        Some(len) => Some(RECORD_HEAD * records_for(deeds.len()) + len),
    }
}
