//! Seats, which sessions carry.

ghost use Rattle.std.specs.Prelude.{◌≡◌, ◌-◌, ◌^◌, min};
ghost use Rattle.std.specs.Arc.{arc_value};
ghost use Rattle.linda_shared_accounts.specs.Account as seen;
ghost use Rattle.linda_shared_accounts.specs.Ring.{last_number};

use linda_shared_accounts::Account;
use linda_shared_queue::Mailbox;
use std::alloc::Global;
use std::marker::Model;
use std::sync::Arc;
use std::sync::ledger::Ledger;

/// What a session carries: the account of its client, and the client's mailbox, which its answers
/// come to. Contracts see the account. Between two calls nothing is on its way.
#[derive(Drop)]
pub struct Seat<L: Ledger> {
    pub(crate) account: Account<L>,
    pub(crate) mailbox: Arc<Mailbox<L>, Global>,
}

impl<L: Ledger> Model for Seat<L> {
    ghost use Rattle.std.specs.Prelude.{◌≡◌};
    ghost use Rattle.std.specs.Arc.{arc_value};
    ghost use Rattle.linda_shared_accounts.specs.Account as seen;
    ghost use Rattle.linda_shared_accounts.specs.Codes.{account_code};

    ghost Value = { seen.Account };

    ghost coded = { account_code };

    ghost view = { λ s. s.account };

    ghost invariant = { λ s. (s.account.asked ≡ 0)
        × ((arc_value s.mailbox).client ≡ s.account.client) };
}

impl<L: Ledger> Seat<L> {
    pub(crate) fn new(account: Account<L>, mailbox: Arc<Mailbox<L>, Global>) -> Seat<L>
        requires none { account.asked ≡ 0 }
        requires own { (arc_value mailbox).client ≡ account.client }
        ensures { result ≡ account }
    {
        Seat { account, mailbox }
    }

    /// The client that has it.
    pub fn client(&self) -> u32
        ensures { result ≡ self.now.client }
    {
        self.account.client()
    }

    /// How many deeds were reported to it, `u64::MAX` at most.
    pub fn deeds(&self) -> u64
        ensures { result ≡ min self.now.deeds (2 ^ 64 - 1) }
    {
        self.account.deeds()
    }

    /// The number of the last receipt that it was given, 0 if there is none.
    pub fn last_number(&self) -> u64
        ensures { result ≡ last_number self.now.ring }
    {
        self.account.last_number()
    }

    // The account of what was reported to it.
    pub(crate) fn into_account(self) -> Account<L>
        ensures { result ≡ self }
    {
        self.account
    }
}
