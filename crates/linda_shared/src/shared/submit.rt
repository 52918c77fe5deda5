//! One message of a session.

ghost use Rattle.std.specs.Prelude.{◌≡◌, ◌⊎◌, ◌+◌, ◌<◌, IfOk, IfErr, OnOk, OnErr, IfSome};
ghost use Rattle.std.specs.Arc.{arc_value};
ghost use Rattle.linda_wire.specs.declared.refusal.Refusal.TheVariants as refusals;
ghost use Rattle.linda_wire.specs.Refusal.{refused};
ghost use Rattle.linda_shared_accounts.specs.Account.{account_of};
ghost use Rattle.linda_shared_accounts.specs.declared.limits.TheConstants.{MOST_ASKED};
ghost use Rattle.linda_shared_accounts.specs.Ring.{IsNext};
ghost use Rattle.linda_shared_queue.specs.Seat.{with_told, IsLeft, IsToldOf};

use super::Shared;
use crate::addressed::addressed;
use crate::seat::Seat;
use linda_disk::Disk;
use linda_shared_accounts::{Account, Receipt, SharedFault};
use linda_shared_queue::{Mailbox, hear};
use linda_wire::{Message, Refusal, Reply};
use std::alloc::{AllocError, Global};
use std::sync::ledger::Ledger;
use std::sync::{Arc, Wait};

impl<D: Disk, L: Ledger> Shared<D, L> {
    /// Submits one message, which is served with all that wait beside it. Returns the receipt of
    /// its deed, if it made one. Its replies come out of the outlet. A Hello is refused there, as
    /// its client has a seat.
    ///
    /// # Errors
    ///
    /// `Down`: the server is down; `Receipt`: a deed was reported to the seat that the message does
    /// not ask for; `Memory`: nothing changed.
    pub fn submit<R: Wait>(
        &self,
        rt: &R,
        seat: &mut Seat<L>,
        message: &Message,
    ) -> Result<Option<Receipt>, SharedFault>
        // There is a receipt exactly if one more deed was reported to the seat, and it joins the
        // ring after the others;
        ensures seat { IfOk result (λ r. seat.new ≡ with_told seat.old r) }
        ensures next { IfOk result (λ o. IfSome o (IsNext seat.old.client seat.old.ring)) }
        // its deed is one that the message asks for.
        ensures deed { IfOk result (IsToldOf seat.old.client message.now) }
        // Else the seat is as before, except after `Receipt`, and after `Down` if the answer was
        // lost: its deed, if it has one, has its receipt in the ring.
        ensures err { IfErr result (λ fault. IsLeft message.now seat.old fault seat.new) }
    {
        if let Message::Hello { .. } = message {
            self.refuse_hello(rt, seat)?;
            return Ok(None);
        }
        let Ok(leads) = self.ask(rt, &mut seat.account, &seat.mailbox, message) else {
            return Err(self.no_memory(rt));
        };
        let answer = self.answer(rt, &seat.mailbox, 0, leads);
        hear(&mut seat.account, message, answer)
    }

    // Puts the refusal of a Hello into the seat's mailbox.
    fn refuse_hello<R: Wait>(&self, rt: &R, seat: &Seat<L>) -> Result<(), SharedFault>
        ensures { IfErr result (λ fault. (fault ≡ SharedFault.Down)
            ⊎ (fault ≡ SharedFault.Memory)) }
    {
        if self.is_down(rt) {
            return Err(SharedFault::Down);
        }
        match seat.mailbox.post_one(rt, second_hello()) {
            Ok(()) => Ok(()),
            Err(_) => Err(SharedFault::Memory),
        }
    }

    // Puts a message of the account into the queue. Returns whether the session is to lead.
    fn ask<R: Wait>(
        &self,
        rt: &R,
        account: &mut Account<L>,
        mailbox: &Arc<Mailbox<L>, Global>,
        message: &Message,
    ) -> Result<bool, AllocError>
        requires few { account.old.asked < MOST_ASKED }
        requires own { (arc_value mailbox.now).client ≡ account.old.client }
        ensures ok { OnOk result (account.new ≡ account_of account.old.client account.old.deeds
            (account.old.asked + 1) account.old.ring) }
        ensures err { OnErr result (account.new ≡ account.old) }
    {
        let (message, address) = addressed(self.alloc, mailbox, 0, message)?;
        mailbox.open(rt, 1)?;
        self.queue.lock(rt).ask(account, message, address)
    }

    // Why a call that ran out of memory did nothing.
    pub(super) fn no_memory<R: Wait>(&self, rt: &R) -> SharedFault
        ensures { (result ≡ SharedFault.Down) ⊎ (result ≡ SharedFault.Memory) }
    {
        if self.is_down(rt) {
            SharedFault::Down
        } else {
            SharedFault::Memory
        }
    }
}

// The reply to a client that greets once more.
fn second_hello() -> Reply
    ensures { result ≡ refused refusals.Busy }
{
    Refusal::Busy.reply()
}
