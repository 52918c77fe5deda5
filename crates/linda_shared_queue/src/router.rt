//! The mailboxes of all sessions, and what is on its way to them.

ghost use Rattle.std.specs.Prelude.{◌≡◌, ◌⊎◌, ◌+◌, ◌<◌, ◌≤◌, ◌++◌, ◌∷◌, [], vec_len, vec_capacity};
ghost use Rattle.std.specs.Prelude.{IfOk};
ghost use Rattle.std.specs.Arc.{arc_value};
ghost use Rattle.std.specs.VecDeque.{deque_capacity};
ghost use Rattle.linda_store_step.specs.declared.size.TheConstants.{MAX_BATCH};
ghost use Rattle.linda_shared_queue.specs.Router.{router_of};

use crate::answer::Answer;
use crate::mailbox::Mailbox;
use crate::mailboxes::Mailboxes;
use crate::recipient::Recipient;
use crate::reply_slot::ReplySlot;
use linda_shared_outbox::Sent;
use linda_store_step::MAX_BATCH;
use std::alloc::{AllocError, Global};
use std::collections::VecDeque;
use std::marker::Model;
use std::sync::ledger::Ledger;
use std::sync::{Arc, Wait};

/// The mailboxes of the clients that have a seat, and what a group came to, which its leader gives
/// out. Contracts see how many answers are here, a batch at most, and the replies, in order.
#[derive(Drop)]
pub struct Router<L: Ledger> {
    boxes: Mailboxes<L>,
    // These two are empty between two groups.
    answers: Vec<Answer<ReplySlot<L>, L>>,
    replies: VecDeque<Sent>,
}

impl<L: Ledger> Model for Router<L> {
    ghost use Rattle.std.specs.Prelude.{◌≡◌, ◌<◌, ◌≤◌, vec_len, vec_capacity};
    ghost use Rattle.std.specs.VecDeque.{deque_capacity};
    ghost use Rattle.linda_store_step.specs.declared.size.TheConstants.{MAX_BATCH};
    ghost use Rattle.linda_shared_queue.specs.Router as seen;
    ghost use Rattle.linda_shared_queue.specs.Router.{router_of};

    ghost Value = { seen.Router };

    ghost view = { λ o. router_of (vec_len o.answers) o.replies.items };

    ghost invariant = { λ o. (vec_len o.answers ≤ MAX_BATCH)
        × (MAX_BATCH ≤ vec_capacity o.answers)
        × (0 < deque_capacity o.replies) };
}

impl<L: Ledger> Router<L> {
    /// Nobody has a seat.
    ///
    /// # Errors
    ///
    /// `AllocError`: nothing was made.
    pub fn new(alloc: Global) -> Result<Router<L>, AllocError>
        ensures { IfOk result (λ o. o ≡ router_of 0 []) }
    {
        let answers = Vec::with_capacity(alloc, MAX_BATCH)?;
        let replies = VecDeque::with_capacity(alloc, MAX_BATCH)?;
        Ok(Router {
            boxes: Mailboxes::new(alloc),
            answers,
            replies,
        })
    }

    /// How many clients have a mailbox here.
    pub fn len(&self) -> usize {
        self.boxes.len()
    }

    /// The mailbox is here from now on, under its client. The one that the client had ends.
    ///
    /// # Errors
    ///
    /// `AllocError`: nothing changes.
    pub fn open<R: Wait>(
        &mut self,
        rt: &R,
        mailbox: Arc<Mailbox<L>, Global>,
    ) -> Result<(), AllocError>
        ensures { self.new ≡ self.old }
    {
        if let Some(before) = self.boxes.insert(mailbox)? {
            before.end(rt);
        }
        Ok(())
    }

    /// The client's mailbox ends, and is no longer here.
    pub fn shut<R: Wait>(&mut self, rt: &R, client: u32)
        ensures { self.new ≡ self.old }
    {
        if let Some(mailbox) = self.boxes.remove(client) {
            mailbox.end(rt);
        }
    }

    /// Takes the answers of a group, for room to write as many again. What is still here goes
    /// out first.
    pub fn take_answers<R: Wait>(&mut self, rt: &R, answers: &mut Vec<Answer<ReplySlot<L>, L>>)
        requires few { vec_len answers.old ≤ MAX_BATCH }
        requires room { MAX_BATCH ≤ vec_capacity answers.old }
        ensures here { self.new ≡ router_of (vec_len answers.old) [] }
        ensures spare { (answers.new.items ≡ []) × (MAX_BATCH ≤ vec_capacity answers.new) }
    {
        self.deliver(rt);
        std::mem::swap(&mut self.answers, answers);
    }

    /// Takes replies. If there is no memory to keep them beside the others, those go out first: so
    /// none is lost.
    pub fn take_replies<R: Wait>(&mut self, rt: &R, sent: Sent)
        ensures kept { (self.new ≡ router_of self.old.answers (self.old.replies ++ sent ∷ []))
            ⊎ (self.new ≡ router_of self.old.answers (sent ∷ [])) }
    {
        if self.replies.reserve(1).is_err() {
            post_all(rt, &self.boxes, &self.answers, &mut self.replies);
        }
        self.replies.push_back_reserved(sent);
    }

    /// Gives out all that it has: first the replies, then the answers.
    pub fn deliver<R: Wait>(&mut self, rt: &R)
        ensures { self.new ≡ router_of 0 [] }
    {
        post_all(rt, &self.boxes, &self.answers, &mut self.replies);
        while let Some(answer) = self.answers.pop() {
            put(rt, answer);
        }
    }

    /// The server is down: all mailboxes end.
    pub fn end_all<R: Wait>(&self, rt: &R) {
        self.boxes.end_all(rt);
    }
}

// Puts replies into the mailboxes of their clients, in order.
fn post_all<L: Ledger, R: Wait>(
    rt: &R,
    boxes: &Mailboxes<L>,
    answers: &[Answer<ReplySlot<L>, L>],
    replies: &mut VecDeque<Sent>,
)
    ensures { (replies.new.items ≡ []) × (deque_capacity replies.new ≡ deque_capacity replies.old) }
{
    while let Some(sent) = replies.pop_front() {
        post(rt, boxes, answers, sent);
    }
}

// Puts replies into their client's mailbox, if it has one. They are news if none of its messages is
// being answered.
fn post<L: Ledger, R: Wait>(
    rt: &R,
    boxes: &Mailboxes<L>,
    answers: &[Answer<ReplySlot<L>, L>],
    sent: Sent,
) {
    let client = sent.client();
    if let Some(mailbox) = boxes.get(client) {
        mailbox.post(rt, sent, !has_answer(answers, client));
    }
}

// Puts an answer where it is waited for.
fn put<L: Ledger, R: Wait>(rt: &R, answer: Answer<ReplySlot<L>, L>) {
    let (mailbox, answer) = arrive(answer);
    mailbox.put(rt, answer);
}

// The mailbox that an answer goes to, and the answer for the recipient that waits there.
fn arrive<L: Ledger>(
    answer: Answer<ReplySlot<L>, L>,
) -> (Arc<Mailbox<L>, Global>, Answer<Recipient, L>)
    ensures to { (result.1.address.client ≡ answer.address.client)
        × (result.1.address.place ≡ answer.address.place) }
    ensures owner { (arc_value result.0).client ≡ result.1.address.client }
    ensures same { (result.1.answered.told ≡ answer.answered.told)
        × (result.1.copy ≡ answer.copy) }
{
    let recipient = answer.address().recipient();
    let (address, answer) = answer.hand_to(recipient);
    (address.into_mailbox(), answer)
}

// Whether one of these goes to the client.
fn has_answer<L: Ledger>(answers: &[Answer<ReplySlot<L>, L>], client: u32) -> bool {
    for answer in answers {
        if answer.address().client() == client {
            return true;
        }
    }
    false
}
