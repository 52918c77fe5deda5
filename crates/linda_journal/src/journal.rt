//! A journal: records one after the other, in a form, up to the first gate that is closed.

ghost use Rattle.std.specs.Prelude.{◌≡◌, ◌≢◌, ◌∷◌, ◌<◌, ◌+◌, ℕ, List, length, drop, IfOk, IfErr};
ghost use Rattle.std.specs.Prelude.{IfSome, IfNone};
ghost use Rattle.linda_store_state.specs.declared.deed.Deed as deed;
ghost use Rattle.linda_journal.specs.declared.kinds.TheConstants.{OPEN};
ghost use Rattle.linda_journal.specs.declared.journal.JournalFault.TheVariants.{Memory};
ghost use Rattle.linda_journal.specs.Records.{spell_records};
ghost use Rattle.linda_journal.specs.Journal.{IsJournal, IsDamaged, IsFaultOf, AreAt, deeds_of};

use crate::kinds::OPEN;
use crate::record::{Record, read_record};
use linda_tuple::Form;
use std::alloc::{AllocError, AllocFailed, Global};
use thiserror::Error;

/// Why a journal was not read.
#[derive(Clone, Copy, Debug, PartialEq, Eq, Error)]
pub enum JournalFault {
    /// No memory for the records.
    #[error("out of memory")]
    Memory,
    /// The offset of the first open gate with no record after it: what is there is cut short, is
    /// not 1 to 64 deeds that fill their length, or has no gate after it.
    #[error("no record at {0}")]
    Damaged(usize),
}

impl From<AllocError> for JournalFault {
    ghost from_gives = { λ _ fault. fault ≡ Memory };

    fn from(_error: AllocError) -> JournalFault {
        JournalFault::Memory
    }
}

impl<T: Drop> From<AllocFailed<T>> for JournalFault {
    ghost from_gives = { λ _ fault. fault ≡ Memory };

    fn from(_error: AllocFailed<T>) -> JournalFault {
        JournalFault::Memory
    }
}

/// What a journal says.
#[derive(Debug, Drop)]
pub struct Journal {
    /// The records, in order.
    pub records: Vec<Record>,
    /// The offset of the closed gate after them.
    pub end: usize,
}

/// Reads the journal whose first gate is at this offset, with its values in the form.
///
/// # Errors
///
/// `Damaged` with the offset of the first open gate with no record after it; `Memory`.
pub fn read_journal(
    alloc: Global,
    form: Form,
    bytes: &[u8],
    at: usize,
) -> Result<Journal, JournalFault>
    requires { at < length bytes.now }
    // What is read is there,
    ensures found { IfOk result (λ j.
        IsJournal form (drop at bytes.now) (deeds_of j.records.items)) }
    // each record at its offset.
    ensures places { IfOk result (λ j. AreAt form at j.records.items
        × (j.end ≡ at + length (spell_records form (deeds_of j.records.items)))) }
    // It is damaged at the offset that is reported.
    ensures fault { IfErr result (IsFaultOf form (drop at bytes.now) at) }
    // Records that are there are read, all of them, or memory runs out.
    ensures only { (rs : List (List deed.Deed)) → IsJournal form (drop at bytes.now) rs
        → IfOk result (λ j. deeds_of j.records.items ≡ rs)
        × IfErr result (λ f. f ≡ JournalFault.Memory) }
    // If it is damaged, that offset is reported, or memory runs out.
    ensures damaged { (place : ℕ) → IsDamaged form (drop at bytes.now) place
        → IfOk result (λ j. ⊥)
        × IfErr result (λ f. f ≢ JournalFault.Memory → f ≡ JournalFault.Damaged (at + place)) }
{
    collect(alloc, form, bytes, at)
}

// Reads record after record. The clauses on other readings follow from these.
fn collect(alloc: Global, form: Form, bytes: &[u8], at: usize) -> Result<Journal, JournalFault>
    requires { at < length bytes.now }
    ensures found { IfOk result (λ j.
        IsJournal form (drop at bytes.now) (deeds_of j.records.items)) }
    ensures places { IfOk result (λ j. AreAt form at j.records.items
        × (j.end ≡ at + length (spell_records form (deeds_of j.records.items)))) }
    ensures fault { IfErr result (IsFaultOf form (drop at bytes.now) at) }
{
    let mut records = Vec::new(alloc);
    let mut rest = &bytes[at..];
    while let Some(behind) = behind_open(rest) {
        let gate = bytes.len() - rest.len();
        match read_record(alloc, form, behind)? {
            None => return Err(JournalFault::Damaged(gate)),
            Some((deeds, after)) => {
                records.push(Record { gate, deeds })?;
                rest = after;
            }
        }
    }
    let end = bytes.len() - rest.len();
    Ok(Journal { records, end })
}

/// What comes after a gate that is open; `None` if it is closed, or is not there.
pub(crate) fn behind_open(bytes: &[u8]) -> Option<&[u8]>
    ensures opened { IfSome result (λ behind. bytes.now ≡ OPEN ∷ behind.now) }
    ensures shut { IfNone result ((behind : List ℕ) → bytes.now ≡ OPEN ∷ behind → ⊥) }
{
    match bytes {
        [OPEN, behind @ ..] => Some(behind),
        _ => None,
    }
}
