//! The tokens of the ledger that are under a lock.

ghost use Rattle.std.specs.Prelude.{◌≡◌, ◌+◌, ◌-◌, ◌*◌, ◌<◌, ◌≤◌, ◌^◌, true, false};
ghost use Rattle.linda_shared_accounts.specs.Tokens as seen;
ghost use Rattle.linda_shared_accounts.specs.Tokens.{tokens_of};

use crate::limits::{ACCOUNT_PARTS, PARTS};
use std::marker::Model;
use std::sync::ledger::{Blank, Book, Ledger, Share};

/// The book of all amounts, and the parts of the accounts that are not out.
#[derive(Drop)]
pub(crate) struct Tokens<L: Ledger> {
    book: Book<L>,
    rest: Share<L>,
    total: u64,
    out: u64,
}

impl<L: Ledger> Model for Tokens<L> {
    ghost use Rattle.std.specs.Prelude.{◌≡◌, ◌+◌, ◌*◌};
    ghost use Rattle.linda_shared_accounts.specs.declared.limits.TheConstants.{ACCOUNT_PARTS};
    ghost use Rattle.linda_shared_accounts.specs.declared.limits.TheConstants.{PARTS};
    ghost use Rattle.linda_shared_accounts.specs.Tokens as seen;
    ghost use Rattle.linda_shared_accounts.specs.Tokens.{tokens_of};

    ghost Value = { seen.Tokens };

    ghost view = { λ p. tokens_of p.book.total p.rest.amount p.out };

    ghost invariant = { λ p. (p.total ≡ p.book.total)
        × (p.rest.parts + ACCOUNT_PARTS * p.out ≡ L.parts) × (L.parts ≡ PARTS) };
}

impl<L: Ledger> Tokens<L> {
    /// Nothing was reported, and all parts are here.
    pub(crate) fn new(blank: Blank) -> Tokens<L>
        requires { (blank.name ≡ L.name) × (blank.parts ≡ L.parts) × (L.parts ≡ PARTS) }
        ensures { result ≡ tokens_of 0 0 0 }
    {
        let (book, rest) = blank.open::<L>();
        Tokens {
            book,
            rest,
            total: 0,
            out: 0,
        }
    }

    /// How many deeds were reported in all.
    pub(crate) fn total(&self) -> u64
        ensures { result ≡ self.now.total }
    {
        self.total
    }

    /// How many accounts are out.
    pub(crate) fn out(&self) -> u64
        ensures { result ≡ self.now.out }
    {
        self.out
    }

    /// Whether there are parts for another account.
    pub(crate) fn has_parts(&self) -> bool
        ensures some { result ≡ true → ACCOUNT_PARTS * (self.now.out + 1) ≤ PARTS }
        ensures none { result ≡ false → PARTS < ACCOUNT_PARTS * (self.now.out + 1) }
    {
        self.out < PARTS / ACCOUNT_PARTS
    }

    /// The parts of an account that goes out, with the number of deeds that were reported to it.
    pub(crate) fn lend(&mut self, deeds: u64) -> Share<L>
        requires { (ACCOUNT_PARTS * (self.old.out + 1) ≤ PARTS) × (deeds ≤ self.old.back) }
        ensures share { (result.parts ≡ ACCOUNT_PARTS) × (result.amount ≡ deeds) }
        ensures tokens { self.new ≡ tokens_of self.old.total (self.old.back - deeds)
            (self.old.out + 1) }
    {
        self.out += 1;
        self.rest.split_off(ACCOUNT_PARTS, deeds)
    }

    /// The parts of an account that comes back. No more deeds were reported to it than were
    /// reported in all.
    pub(crate) fn take_back(&mut self, share: Share<L>)
        requires { share.parts ≡ ACCOUNT_PARTS }
        ensures tokens { self.new ≡ tokens_of self.old.total (self.old.back + share.amount)
            (self.old.out - 1) }
        ensures out { 0 < self.old.out }
        ensures told { (share.amount ≤ self.old.total) × (self.old.total < 2 ^ 64) }
    {
        let mut share = share;
        self.book.audit(&mut share);
        self.rest.merge(share);
        self.out -= 1;
    }

    /// One more deed is reported to the owner of this part.
    pub(crate) fn add(&mut self, part: &mut Share<L>)
        requires { (0 < part.old.parts) × (self.old.total + 1 < 2 ^ 64) }
        ensures tokens { self.new ≡ tokens_of (self.old.total + 1) self.old.back self.old.out }
        ensures part { (part.new.parts ≡ part.old.parts) × (part.new.amount ≡ part.old.amount + 1) }
    {
        self.book.add(part, 1);
        self.total += 1;
    }

    /// Whether all accounts are back: then all that was reported was reported to them.
    pub(crate) fn audit(&mut self) -> bool
        ensures back { result ≡ true → (self.old.out ≡ 0) × (self.old.total ≡ self.old.back) }
        ensures out { result ≡ false → 0 < self.old.out }
        ensures same { self.new ≡ self.old }
    {
        if self.out != 0 {
            return false;
        }
        self.book.audit(&mut self.rest);
        true
    }
}
