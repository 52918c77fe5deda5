//! Several messages of a session at once.

ghost use Rattle.std.specs.Prelude.{◌≡◌, ◌+◌, ◌<◌, ◌≤◌, [], length, All, IfOk, IfErr};
ghost use Rattle.std.specs.Prelude.{vec_len, vec_capacity, OnOk, OnErr};
ghost use Rattle.std.specs.Arc.{arc_value};
ghost use Rattle.linda_store_step.specs.declared.size.TheConstants.{MAX_BATCH};
ghost use Rattle.linda_shared_accounts.specs.Account.{account_of};
ghost use Rattle.linda_shared_accounts.specs.declared.limits.TheConstants.{MOST_ASKED};
ghost use Rattle.linda_shared_queue.specs.Seat.{with_all, with_asked, AreToldOf, IsLeftBy};
ghost use Rattle.linda_shared_queue.specs.Seat.{IsRequest};

use super::Shared;
use crate::addressed::address_all;
use crate::seat::Seat;
use linda_disk::Disk;
use linda_shared_accounts::{Account, Receipt, SharedFault};
use linda_shared_queue::{Heard, Mailbox};
use linda_wire::Message;
use std::alloc::{AllocError, Global};
use std::sync::ledger::Ledger;
use std::sync::{Arc, Wait};

impl<D: Disk, L: Ledger> Shared<D, L> {
    /// Submits some messages, which are served in one group, one after the other. Returns for each
    /// the receipt of its deed, if it made one. Their replies come out of the outlet.
    ///
    /// # Errors
    ///
    /// `Down`: the server is down; `Receipt`: a deed was reported to the seat that its message does
    /// not ask for; `Memory`: nothing changed.
    pub fn submit_all<R: Wait>(
        &self,
        rt: &R,
        seat: &mut Seat<L>,
        messages: &[Message],
    ) -> Result<Vec<Option<Receipt>>, SharedFault>
        requires some { 0 < length messages.now }
        requires few { length messages.now ≤ MAX_BATCH }
        requires requests { All IsRequest messages.now }
        // For each receipt a deed was reported to the seat, and the receipts join the ring, in
        // order;
        ensures seat { IfOk result (λ told. seat.new ≡ with_all seat.old told.items) }
        // there is an answer for each message, and a deed is one that its own message asks for.
        ensures deeds { IfOk result (λ told. AreToldOf seat.old.client messages.now told.items) }
        ensures each { IfOk result (λ told. vec_len told ≡ length messages.now) }
        // Else the seat is as before, except after `Receipt`, and after `Down` if answers were
        // lost: each deed of those has its receipt in the ring.
        ensures err { IfErr result (λ fault. IsLeftBy messages.now seat.old fault seat.new) }
    {
        let Ok(told) = Vec::with_capacity(self.alloc, messages.len()) else {
            return Err(self.no_memory(rt));
        };
        let Ok(leads) = self.ask_all(rt, &mut seat.account, &seat.mailbox, messages) else {
            return Err(self.no_memory(rt));
        };
        self.hear_all(rt, &seat.mailbox, &mut seat.account, messages, leads, told)
    }

    // Puts messages of the account into the queue. Returns whether the session is to lead.
    fn ask_all<R: Wait>(
        &self,
        rt: &R,
        account: &mut Account<L>,
        mailbox: &Arc<Mailbox<L>, Global>,
        messages: &[Message],
    ) -> Result<bool, AllocError>
        requires some { 0 < length messages.now }
        requires few { account.old.asked + length messages.now ≤ MOST_ASKED }
        requires own { (arc_value mailbox.now).client ≡ account.old.client }
        ensures ok { OnOk result (account.new ≡ account_of account.old.client account.old.deeds
            (account.old.asked + length messages.now) account.old.ring) }
        ensures err { OnErr result (account.new ≡ account.old) }
    {
        let addressed = address_all(self.alloc, mailbox, messages)?;
        mailbox.open(rt, messages.len())?;
        self.queue.lock(rt).ask_all(account, addressed)
    }

    // Waits for the answers to these messages.
    fn hear_all<R: Wait>(
        &self,
        rt: &R,
        mailbox: &Mailbox<L>,
        account: &mut Account<L>,
        messages: &[Message],
        leads: bool,
        told: Vec<Option<Receipt>>,
    ) -> Result<Vec<Option<Receipt>>, SharedFault>
        requires asked { account.old.asked ≡ length messages.now }
        requires none { told.items ≡ [] }
        requires room { length messages.now ≤ vec_capacity told }
        ensures client { account.new.client ≡ account.old.client }
        ensures asked { account.new.asked ≡ 0 }
        ensures ok { IfOk result (λ told.
            account.new ≡ with_all (with_asked account.old 0) told.items) }
        ensures deeds { IfOk result (λ told. AreToldOf account.old.client messages.now told.items) }
        ensures each { IfOk result (λ told. vec_len told ≡ length messages.now) }
        ensures err { IfErr result (λ fault.
            IsLeftBy messages.now (with_asked account.old 0) fault account.new) }
    {
        let mut heard = Heard::new(told);
        let mut leads = leads;
        let mut place: usize = 0;
        for message in messages {
            let answer = self.answer(rt, mailbox, place, leads);
            leads = false;
            heard.add(account, message, answer);
            place += 1;
        }
        heard.end()
    }
}
