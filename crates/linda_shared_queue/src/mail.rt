//! Contents of a mailbox, under its lock.

ghost use Rattle.std.specs.Prelude.{◌≡◌, ◌-◌, ◌++◌, ◌∷◌, [], true, false, not, ◌&&◌, ◌==◌, nat_lt};
ghost use Rattle.std.specs.Prelude.{Some, vec_len, slice_get, slice_set, OnOk, OnErr};
ghost use Rattle.linda_shared_queue.specs.Turns.{GivesFrom, IsThere};

use crate::answer::Answer;
use crate::recipient::Recipient;
use linda_shared_outbox::Sent;
use linda_wire::Reply;
use std::alloc::{AllocError, Global};
use std::sync::ledger::Ledger;

/// The contents of a mailbox.
#[derive(Drop)]
pub(crate) struct Mail<L: Ledger> {
    replies: Vec<Reply>,
    // A place for the answer to each message in hand, and how many are still to come.
    places: Vec<Option<Answer<Recipient, L>>>,
    due: usize,
    leads: bool,
    // No reply comes any more: the server is down, the seat was given up, or a reply could not be
    // kept.
    is_over: bool,
}

impl<L: Ledger> Mail<L> {
    pub(crate) fn new(alloc: Global) -> Mail<L>
        ensures { (result.replies.items ≡ []) × (result.places.items ≡ [])
            × (result.is_over ≡ false) }
    {
        Mail {
            replies: Vec::new(alloc),
            places: Vec::new(alloc),
            due: 0,
            leads: false,
            is_over: false,
        }
    }

    /// Whether the thread that submitted can only wait.
    pub(crate) fn is_idle(&self) -> bool
        ensures { result ≡ (not self.now.leads && nat_lt 0 self.now.due) }
    {
        !self.leads && self.due > 0
    }

    /// Whether a thread that wants replies can only wait.
    pub(crate) fn is_empty(&self) -> bool
        ensures { result ≡ ((vec_len self.now.replies == 0) && not self.now.is_over) }
    {
        self.replies.is_empty() && !self.is_over
    }

    pub(crate) fn is_over(&self) -> bool
        ensures { result ≡ self.now.is_over }
    {
        self.is_over
    }

    /// Whether no answer is still to come.
    pub(crate) fn is_last(&self) -> bool
        ensures { result ≡ (self.now.due == 0) }
    {
        self.due == 0
    }

    pub(crate) fn set_over(&mut self)
        ensures { (self.new.is_over ≡ true) × (self.new.replies.items ≡ self.old.replies.items) }
    {
        self.is_over = true;
    }

    pub(crate) fn set_leads(&mut self)
        ensures { (self.new.leads ≡ true) × (self.new.places.items ≡ self.old.places.items) }
    {
        self.leads = true;
    }

    /// Places for so many answers, which are due.
    pub(crate) fn open(&mut self, n: usize) -> Result<(), AllocError>
        ensures { OnOk result ((vec_len self.new.places ≡ n) × (self.new.due ≡ n)) }
    {
        self.places.clear();
        for _ in 0..n {
            self.places.push(None)?;
        }
        self.due = n;
        Ok(())
    }

    /// Puts an answer into its own place.
    pub(crate) fn put(&mut self, answer: Answer<Recipient, L>)
        ensures places { self.new.places.items
            ≡ slice_set self.old.places.items answer.address.place (Some answer) }
        ensures due { self.new.due ≡ self.old.due - 1 }
    {
        let place = answer.address().place();
        if place < self.places.len() {
            self.places[place] = Some(answer);
        }
        self.due = self.due.saturating_sub(1);
    }

    /// Puts a reply after the others. If there is no memory for it, nothing changes.
    pub(crate) fn post_one(&mut self, reply: Reply) -> Result<(), AllocError>
        ensures ok { OnOk result (self.new.replies.items ≡ self.old.replies.items ++ reply ∷ []) }
        ensures err { OnErr result (self.new.replies.items ≡ self.old.replies.items) }
        ensures over { self.new.is_over ≡ self.old.is_over }
    {
        self.replies.push(reply)?;
        Ok(())
    }

    /// Puts replies after the others. If there is no memory for them, none comes any more.
    pub(crate) fn post(&mut self, sent: Sent)
        ensures kept { self.new.is_over ≡ self.old.is_over
            → self.old.is_over ≡ false
            → self.new.replies.items ≡ self.old.replies.items ++ sent.replies.items }
        ensures over { self.old.is_over ≡ true → self.new.is_over ≡ true }
    {
        let mut replies = sent.into_replies();
        if self.replies.is_empty() {
            self.replies = replies;
            return;
        }
        if self.replies.append(&mut replies).is_err() {
            self.is_over = true;
        }
    }

    /// The replies that are there. None is left.
    pub(crate) fn drain(&mut self, alloc: Global) -> Vec<Reply>
        ensures all { result.items ≡ self.old.replies.items }
        ensures none { self.new.replies.items ≡ [] }
        ensures over { self.new.is_over ≡ self.old.is_over }
    {
        std::mem::replace(&mut self.replies, Vec::new(alloc))
    }

    /// Whether the session is to lead, before all; if not, the answer of this place, which is there
    /// no more.
    pub(crate) fn turn(&mut self, place: usize) -> (bool, Option<Answer<Recipient, L>>)
        ensures gives { GivesFrom self.old.leads (slice_get self.old.places.items place) result.1 }
        ensures leads { (result.0 ≡ self.old.leads) × (self.new.leads ≡ false) }
    {
        if self.leads {
            self.leads = false;
            return (true, None);
        }
        (false, collect(&mut self.places, place))
    }
}

// Takes the answer out of this place.
fn collect<L: Ledger>(
    places: &mut Vec<Option<Answer<Recipient, L>>>,
    place: usize,
) -> Option<Answer<Recipient, L>>
    ensures { IsThere result (slice_get places.old.items place) }
{
    if place < places.len() {
        places[place].take()
    } else {
        None
    }
}
