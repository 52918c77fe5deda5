//! A message on its way to the server and back, with a part of the ledger.

ghost use Rattle.std.specs.Prelude.{◌≡◌, ◌+◌, ◌<◌, ◌^◌};
ghost use Rattle.linda_shared_accounts.specs.Accounts.{accounts_of};
ghost use Rattle.linda_shared_accounts.specs.Effect.{weight};

use crate::accounts::Accounts;
use crate::effect::Effect;
use crate::shared_receipt::SharedReceipt;
use std::sync::ledger::{Ledger, Share};

/// A message on its way to the server: nothing is reported yet. The address says where the answer
/// is to go.
#[derive(Drop)]
pub struct PendingAck<A: Drop, L: Ledger> {
    pub(crate) address: A,
    pub(crate) part: Share<L>,
    ghost one: { part.parts ≡ 1 },
    ghost nothing: { part.amount ≡ 0 },
}

/// An answer on its way back: what it reports is written in the ledger.
#[derive(Drop)]
pub struct Ack<A: Drop, L: Ledger> {
    pub(crate) address: A,
    pub(crate) told: Effect<SharedReceipt>,
    pub(crate) part: Share<L>,
    ghost one: { part.parts ≡ 1 },
    ghost counted: { part.amount ≡ weight told },
}

impl<A: Drop, L: Ledger> PendingAck<A, L> {
    /// Where the answer is to go.
    pub fn address(&self) -> &A
        ensures { result.now ≡ self.now.address }
    {
        &self.address
    }

    /// Writes what is reported into the ledger. A message becomes an `Ack` in no other way.
    pub fn answered(self, accounts: &mut Accounts<L>, told: Effect<SharedReceipt>) -> Ack<A, L>
        requires { accounts.old.total + weight told < 2 ^ 64 }
        ensures accounts { accounts.new ≡ accounts_of (accounts.old.total + weight told)
            accounts.old.places }
        ensures told { (result.told ≡ told) × (result.address ≡ self.address) }
    {
        let PendingAck {
            address,
            mut part,
            ..
        } = self;
        if let Effect::Deed(_) = &told {
            accounts.add(&mut part);
        }
        Ack {
            address,
            told,
            part,
        }
    }
}

impl<A: Drop, L: Ledger> Ack<A, L> {
    /// Where it is to go.
    pub fn address(&self) -> &A
        ensures { result.now ≡ self.now.address }
    {
        &self.address
    }

    /// What is reported.
    pub fn told(&self) -> &Effect<SharedReceipt>
        ensures { result.now ≡ self.now.told }
    {
        &self.told
    }

    /// The address, and the answer without one, so that the answer can be put where the address
    /// leads to.
    pub fn detach(self) -> (A, Ack<(), L>)
        ensures { (result.0 ≡ self.address) × (result.1.told ≡ self.told) }
    {
        let Ack {
            address,
            told,
            part,
            ..
        } = self;
        let bare = Ack {
            address: (),
            told,
            part,
        };
        (address, bare)
    }
}
