//! The last receipts of one client.

ghost use Rattle.std.specs.Prelude.{◌≡◌, ◌<◌, ◌≤◌, true, false, IfOk, []};
ghost use Rattle.std.specs.Prelude.{option_copied, length};
ghost use Rattle.std.specs.Prelude.{slice_get};
ghost use Rattle.circular_buffer.specs.Buffer.{keep_last, last_item};
ghost use Rattle.linda_shared_accounts.specs.Ring as seen;
ghost use Rattle.linda_shared_accounts.specs.Ring.{IsRing, IsNext, IsCut, KeepsAbove, IsAbove};
ghost use Rattle.linda_shared_accounts.specs.Ring.{number_at, ring_of};
ghost use Rattle.linda_shared_accounts.specs.Ring.{with_receipt};
ghost use Rattle.linda_shared_accounts.specs.Agreement.{AgreesWith, HasRival};

use crate::limits::RING_SIZE;
use crate::shared_receipt::SharedReceipt;
use circular_buffer::HeapCircularBuffer;
use std::alloc::{AllocError, Global};
use std::marker::Model;

/// The last receipts of one client, by rising numbers.
#[derive(Drop)]
pub struct Ring {
    client: u32,
    receipts: HeapCircularBuffer<SharedReceipt>,
}

impl Model for Ring {
    ghost use Rattle.std.specs.Prelude.{◌≡◌};
    ghost use Rattle.linda_shared_accounts.specs.declared.limits.TheConstants.{RING_SIZE};
    ghost use Rattle.linda_shared_accounts.specs.Ring as seen;
    ghost use Rattle.linda_shared_accounts.specs.Ring.{IsRing, ring_of};
    ghost use Rattle.linda_shared_accounts.specs.Codes.{ring_code};

    ghost Value = { seen.Ring };

    ghost coded = { ring_code };

    ghost view = { λ r. ring_of r.client r.receipts.items };

    ghost invariant = { λ r. (r.receipts.capacity ≡ RING_SIZE) × IsRing r.client r.receipts.items };
}

impl Ring {
    /// No receipts, with room for as many as there may be.
    ///
    /// # Errors
    ///
    /// `AllocError` if memory runs out.
    pub fn new(alloc: Global, client: u32) -> Result<Ring, AllocError>
        ensures { IfOk result (λ r. r ≡ ring_of client []) }
    {
        let receipts = HeapCircularBuffer::with_capacity(alloc, RING_SIZE)?;
        Ok(Ring { client, receipts })
    }

    /// Whose receipts they are.
    pub fn client(&self) -> u32
        ensures is { result ≡ self.now.client }
        ensures ring { IsRing self.now.client self.now.receipts }
    {
        self.client
    }

    /// The last one.
    pub fn last(&self) -> Option<&SharedReceipt>
        ensures is { option_copied result ≡ last_item self.now.receipts }
        ensures ring { IsRing self.now.client self.now.receipts }
    {
        self.receipts.back()
    }

    /// The number of the last one, 0 if there is none.
    pub fn last_number(&self) -> u64
        ensures { result ≡ seen.last_number self.now.receipts }
    {
        match self.receipts.back() {
            Some(last) => last.number(),
            None => 0,
        }
    }

    /// Notes one more and returns true, if it is of this client and its number is above all others;
    /// the oldest is dropped if there is no room. Else nothing changes.
    pub fn note(&mut self, receipt: SharedReceipt) -> bool
        ensures noted { result ≡ true → IsNext self.old.client self.old.receipts receipt
            × (self.new ≡ ring_of self.old.client (with_receipt self.old.receipts receipt)) }
        ensures refused { result ≡ false
            → (IsNext self.old.client self.old.receipts receipt → ⊥) × (self.new ≡ self.old) }
    {
        if receipt.client() != self.client || receipt.number() <= self.last_number() {
            return false;
        }
        let _oldest = self.receipts.push_back(receipt);
        true
    }

    /// How many there are.
    pub fn len(&self) -> usize
        ensures { result ≡ length self.now.receipts }
    {
        self.receipts.len()
    }

    /// Keeps so many of the last ones.
    pub fn cut(&mut self, len: usize)
        ensures { self.new ≡ ring_of self.old.client (keep_last len self.old.receipts) }
    {
        self.receipts.truncate_front(len);
    }

    /// Drops those with numbers up to this one, but never the last.
    pub fn forget(&mut self, floor: u64)
        ensures client { self.new.client ≡ self.old.client }
        ensures cut { IsCut self.old.receipts self.new.receipts }
        ensures kept { KeepsAbove floor self.old.receipts self.new.receipts }
        ensures gone { IsAbove floor self.new.receipts }
    {
        drop_up_to(&mut self.receipts, floor);
    }

    /// Whether each receipt here of that one's number is that one.
    pub fn agrees(&self, other: &SharedReceipt) -> bool
        ensures agrees { result ≡ true → AgreesWith self.now.receipts other.now }
        ensures differs { result ≡ false → HasRival self.now.receipts other.now }
    {
        if self.is_newer(other) {
            return true;
        }
        for mine in self.receipts.iter() {
            if mine.number() == other.number() && !mine.is_same(other) {
                return false;
            }
        }
        true
    }

    // Whether all receipts here have numbers above that one's. Then none has its number.
    fn is_newer(&self, other: &SharedReceipt) -> bool
        ensures { result ≡ true → AgreesWith self.now.receipts other.now }
    {
        match self.receipts.front() {
            Some(first) => other.number() < first.number(),
            None => true,
        }
    }
}

// Drops those with numbers up to this one, but never the last.
fn drop_up_to(receipts: &mut HeapCircularBuffer<SharedReceipt>, floor: u64)
    ensures capacity { receipts.new.capacity ≡ receipts.old.capacity }
    ensures cut { IsCut receipts.old.items receipts.new.items }
    ensures kept { KeepsAbove floor receipts.old.items receipts.new.items }
    ensures gone { IsAbove floor receipts.new.items }
{
    while has_old(receipts, floor) {
        let rest = receipts.len() - 1;
        receipts.truncate_front(rest);
    }
}

// Whether there are several, and the first one has a number up to this one.
fn has_old(receipts: &HeapCircularBuffer<SharedReceipt>, floor: u64) -> bool
    ensures old { result ≡ true → (1 < length receipts.now.items)
        × (number_at (slice_get receipts.now.items 0) ≤ floor) }
    ensures above { result ≡ false → IsAbove floor receipts.now.items }
{
    match receipts.front() {
        Some(first) => receipts.len() > 1 && first.number() <= floor,
        None => false,
    }
}
