//! The bytes of a disk read as a bank.

ghost use Rattle.std.specs.Prelude.{◌≡◌, ◌<◌, ◌≤◌, ◌+◌, ◌-◌, take, drop, length, IfOk, IfErr};
ghost use Rattle.linda_journal.specs.declared.limits.TheConstants.{MIN_BYTES};
ghost use Rattle.linda_journal.specs.Records.{spell_records};
ghost use Rattle.linda_journal.specs.Journal.{AreAt, deeds_of};
ghost use Rattle.linda_journal.specs.Bank.{IsBank};
ghost use Rattle.linda_journal.specs.Image.{IsFaultOfBank};

use crate::fault::BankFault;
use crate::heading::{Heading, read_heading};
use crate::journal::{Journal, JournalFault, read_journal};
use crate::limits::{LENGTH_PLACE, MIN_BYTES};
use linda_codec::read_u32;
use linda_tuple::Form;
use std::alloc::Global;

/// What a bank says.
#[derive(Debug, Drop)]
pub(crate) struct Image {
    pub form: Form,
    pub generation: u64,
    /// Where the journal begins, which is where the body ends.
    pub at: usize,
    pub journal: Journal,
}

/// Reads a bank in the form that it begins with.
///
/// # Errors
///
/// `NoBank`, `Damaged` with the offset of the first fault from the left, `Memory`.
pub(crate) fn read_image(alloc: Global, bytes: &[u8]) -> Result<Image, BankFault>
    ensures found { IfOk result (λ i. IsBank i.form bytes.now i.generation
        (take (i.at - MIN_BYTES) (drop MIN_BYTES bytes.now)) (deeds_of i.journal.records.items)) }
    ensures places { IfOk result (λ i. AreAt i.form i.at i.journal.records.items) }
    ensures end { IfOk result (λ i. i.journal.end
        ≡ i.at + length (spell_records i.form (deeds_of i.journal.records.items))) }
    ensures room { IfOk result (λ i. (MIN_BYTES ≤ i.at) × (i.at < length bytes.now)) }
    ensures fault { IfErr result (IsFaultOfBank bytes.now) }
{
    match read_heading(bytes) {
        Heading::NoBank => Err(BankFault::NoBank),
        Heading::Foreign => Err(BankFault::Damaged(1)),
        Heading::Bank { form, generation } => {
            let (_, behind) = bytes.split_at(LENGTH_PLACE);
            match read_u32(behind) {
                Err(_) => Err(BankFault::Damaged(MIN_BYTES)),
                Ok((len, rest)) => {
                    let len = len as usize;
                    if rest.len() <= len {
                        return Err(BankFault::Damaged(MIN_BYTES));
                    }
                    let at = MIN_BYTES + len;
                    match read_journal(alloc, form, bytes, at) {
                        Ok(journal) => Ok(Image {
                            form,
                            generation,
                            at,
                            journal,
                        }),
                        Err(JournalFault::Memory) => Err(BankFault::Memory),
                        Err(JournalFault::Damaged(offset)) => Err(BankFault::Damaged(offset)),
                    }
                }
            }
        }
    }
}
