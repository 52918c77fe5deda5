//! Account of a session: the deeds that were reported to it.

ghost use Rattle.std.specs.Prelude.{◌≡◌, ◌+◌, ◌-◌, ◌<◌, ◌≤◌, ◌^◌, true, false, min, length};
ghost use Rattle.linda_shared_accounts.specs.Account as seen;
ghost use Rattle.linda_shared_accounts.specs.Account.{account_of};
ghost use Rattle.linda_shared_accounts.specs.Ring.{IsRing, IsNext, IsCut, KeepsAbove, IsAbove};
ghost use Rattle.linda_shared_accounts.specs.Ring.{last_number};
ghost use Rattle.linda_shared_accounts.specs.Ring.{with_receipt};
ghost use Rattle.linda_shared_accounts.specs.Effect.{weight};

use crate::effect::Effect;
use crate::limits::{ACCOUNT_PARTS, MOST_ASKED};
use crate::pending_ack::{Ack, PendingAck};
use crate::ring::Ring;
use crate::shared_receipt::SharedReceipt;
use std::marker::Model;
use std::sync::ledger::{Ledger, Share};

/// What a session carries: its client, how many deeds were reported to it, its last receipts, and
/// its parts of the ledger, of which one goes with each message that is on its way.
#[derive(Drop)]
pub struct Account<L: Ledger> {
    pub(crate) ring: Ring,
    // How many deeds were reported to it; those above the greatest u64 are counted only in the
    // share.
    pub(crate) deeds: u64,
    pub(crate) asked: u64,
    pub(crate) share: Share<L>,
}

impl<L: Ledger> Model for Account<L> {
    ghost use Rattle.std.specs.Prelude.{◌≡◌, ◌+◌, ◌-◌, ◌^◌, min};
    ghost use Rattle.linda_shared_accounts.specs.declared.limits.TheConstants.{ACCOUNT_PARTS};
    ghost use Rattle.linda_shared_accounts.specs.Account as seen;
    ghost use Rattle.linda_shared_accounts.specs.Account.{account_of};
    ghost use Rattle.linda_shared_accounts.specs.Codes.{account_code};

    ghost Value = { seen.Account };

    ghost coded = { account_code };

    ghost view = { λ a. account_of a.ring.client a.share.amount a.asked a.ring.receipts };

    ghost invariant = { λ a. (a.share.parts + a.asked ≡ ACCOUNT_PARTS)
        × (a.deeds ≡ min a.share.amount (2 ^ 64 - 1)) };
}

impl<L: Ledger> Account<L> {
    /// The client whose session it is.
    pub fn client(&self) -> u32
        ensures is { result ≡ self.now.client }
        ensures ring { IsRing self.now.client self.now.ring }
    {
        self.ring.client()
    }

    /// How many deeds were reported to it, `u64::MAX` at most.
    pub fn deeds(&self) -> u64
        ensures { result ≡ min self.now.deeds (2 ^ 64 - 1) }
    {
        self.deeds
    }

    /// How many messages are on their way.
    pub fn asked(&self) -> u64
        ensures is { result ≡ self.now.asked }
        ensures few { result ≤ ACCOUNT_PARTS }
    {
        self.asked
    }

    /// The number of the last receipt, 0 if there is none.
    pub fn last_number(&self) -> u64
        ensures { result ≡ last_number self.now.ring }
    {
        self.ring.last_number()
    }

    /// A message goes on its way.
    pub fn ask<A: Drop>(&mut self, address: A) -> PendingAck<A, L>
        requires { self.old.asked < MOST_ASKED }
        ensures account { self.new ≡ account_of self.old.client self.old.deeds (self.old.asked + 1)
            self.old.ring }
        ensures address { result.address ≡ address }
    {
        let part = self.share.split_off(1, 0);
        self.asked += 1;
        PendingAck { address, part }
    }

    /// A message that nobody took on comes back.
    pub fn recall<A: Drop>(&mut self, asked: PendingAck<A, L>) -> A
        requires { 0 < self.old.asked }
        ensures account { self.new ≡ account_of self.old.client self.old.deeds (self.old.asked - 1)
            self.old.ring }
        ensures address { result ≡ asked.address }
    {
        let PendingAck { address, part, .. } = asked;
        self.share.merge(part);
        self.asked -= 1;
        address
    }

    /// An answer comes back.
    pub fn hear<A: Drop>(&mut self, answered: Ack<A, L>) -> (A, Effect<SharedReceipt>)
        requires { 0 < self.old.asked }
        ensures account { self.new
            ≡ account_of self.old.client (self.old.deeds + weight answered.told)
            (self.old.asked - 1) self.old.ring }
        ensures told { (result.0 ≡ answered.address) × (result.1 ≡ answered.told) }
    {
        let Ack {
            address,
            told,
            part,
            ..
        } = answered;
        self.share.merge(part);
        self.asked -= 1;
        self.deeds = self.deeds.saturating_add(told.weight());
        (address, told)
    }

    /// Notes a receipt and returns true, if it is of this client and its number is above all
    /// others; else nothing changes.
    pub fn note(&mut self, receipt: SharedReceipt) -> bool
        ensures noted { result ≡ true → IsNext self.old.client self.old.ring receipt × (self.new
            ≡ account_of self.old.client self.old.deeds self.old.asked
            (with_receipt self.old.ring receipt)) }
        ensures refused { result ≡ false
            → (IsNext self.old.client self.old.ring receipt → ⊥) × (self.new ≡ self.old) }
    {
        self.ring.note(receipt)
    }

    /// How many receipts it has.
    pub fn receipts(&self) -> usize
        ensures { result ≡ length self.now.ring }
    {
        self.ring.len()
    }

    /// Drops the receipts with numbers up to this one, but never the last.
    pub fn forget(&mut self, floor: u64)
        ensures account { self.new
            ≡ account_of self.old.client self.old.deeds self.old.asked self.new.ring }
        ensures cut { IsCut self.old.ring self.new.ring }
        ensures kept { KeepsAbove floor self.old.ring self.new.ring }
        ensures gone { IsAbove floor self.new.ring }
    {
        self.ring.forget(floor);
    }
}
