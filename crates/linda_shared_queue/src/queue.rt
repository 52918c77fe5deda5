//! The messages that wait to be served.

ghost use Rattle.std.specs.Prelude.{◌≡◌, ◌+◌, ◌<◌, ◌≤◌, ◌++◌, ◌∷◌, [], true, false, not};
ghost use Rattle.std.specs.Prelude.{◌||◌, All};
ghost use Rattle.std.specs.Prelude.{map, vec_len, nat_lt, is_some, IfOk, OnOk, OnErr, IfSome};
ghost use Rattle.std.specs.Prelude.{IfNone};
ghost use Rattle.std.specs.VecDeque.{deque_len};
ghost use Rattle.linda_shared_accounts.specs.Account.{account_of};
ghost use Rattle.linda_shared_accounts.specs.declared.limits.TheConstants.{MOST_ASKED};
ghost use Rattle.linda_shared_queue.specs.Queue as spec;
ghost use Rattle.linda_shared_queue.specs.Queue.{seen, all_seen, line, fits, all_ask, asks_next};

use crate::reply_slot::ReplySlot;
use linda_shared_accounts::{Account, PendingAck};
use linda_wire::Message;
use std::alloc::{AllocError, Global};
use std::collections::VecDeque;
use std::sync::Wait;
use std::sync::ledger::Ledger;

/// A message that waits to be served.
#[derive(Drop)]
pub struct Waiting<L: Ledger> {
    /// What is asked.
    pub message: Message,
    /// Where the answer goes.
    pub asked: PendingAck<ReplySlot<L>, L>,
    // How many messages of the same call come after it.
    behind: usize,
}

/// The messages that wait, each kind in order, and whether a thread leads: it serves a group, or is
/// to serve one. Asks and Cancels, of which no deed comes, go in groups of their own, so that a
/// client that asks waits for no disk but that of the group before. If both kinds wait, the groups
/// alternate, so neither waits for more than one of the other.
#[derive(Drop)]
pub struct Queue<L: Ledger> {
    // Calls of which deeds may come.
    doing: VecDeque<Waiting<L>>,
    // Calls of only Asks and Cancels.
    asking: VecDeque<Waiting<L>>,
    // Whether the last group was one of Asks and Cancels.
    has_asked: bool,
    is_led: bool,
}

impl<L: Ledger> Queue<L> {
    /// Nobody waits.
    pub fn new(alloc: Global) -> Queue<L>
        ensures { (result.doing.items ≡ []) × (result.asking.items ≡ []) }
    {
        Queue {
            doing: VecDeque::new(alloc),
            asking: VecDeque::new(alloc),
            has_asked: false,
            is_led: false,
        }
    }

    /// A message of this account goes on its way, after the others of its kind. Returns whether the
    /// caller is to lead.
    ///
    /// # Errors
    ///
    /// `AllocError`: nothing changes.
    pub fn ask(
        &mut self,
        account: &mut Account<L>,
        message: Message,
        address: ReplySlot<L>,
    ) -> Result<bool, AllocError>
        requires few { account.old.asked < MOST_ASKED }
        requires own { address.client ≡ account.old.client }
        ensures ok { OnOk result (account.new ≡ account_of account.old.client account.old.deeds
            (account.old.asked + 1) account.old.ring) }
        ensures err { OnErr result (account.new ≡ account.old) }
        ensures joins { OnOk result (line (spec.only_asks message) self.new
            ≡ line (spec.only_asks message) self.old ++ (message, address, 0) ∷ []) }
        ensures others { line (not (spec.only_asks message)) self.new
            ≡ line (not (spec.only_asks message)) self.old }
        ensures leads { IfOk result (λ leads. leads ≡ not self.old.is_led) }
    {
        if only_asks(&message) {
            join(&mut self.asking, account, message, address)?;
        } else {
            join(&mut self.doing, account, message, address)?;
        }
        Ok(take_lead(&mut self.is_led))
    }

    /// Messages of this account go on their way, after the others of their kind and one after
    /// another; they are served in one group. Returns whether the caller is to lead.
    ///
    /// # Errors
    ///
    /// `AllocError`: nothing changes.
    pub fn ask_all(
        &mut self,
        account: &mut Account<L>,
        messages: Vec<(Message, ReplySlot<L>)>,
    ) -> Result<bool, AllocError>
        requires some { 0 < vec_len messages }
        requires few { account.old.asked + vec_len messages ≤ MOST_ASKED }
        requires own { All (λ m. m.1.client ≡ account.old.client) messages.items }
        ensures ok { OnOk result (account.new ≡ account_of account.old.client account.old.deeds
            (account.old.asked + vec_len messages) account.old.ring) }
        ensures err { OnErr result (account.new ≡ account.old) }
        ensures joins { OnOk result (line (all_ask messages.items) self.new
            ≡ line (all_ask messages.items) self.old ++ all_seen messages.items) }
        ensures others { line (not (all_ask messages.items)) self.new
            ≡ line (not (all_ask messages.items)) self.old }
        ensures leads { IfOk result (λ leads. leads ≡ not self.old.is_led) }
    {
        if all_only_ask(&messages) {
            join_all(&mut self.asking, account, messages)?;
        } else {
            join_all(&mut self.doing, account, messages)?;
        }
        Ok(take_lead(&mut self.is_led))
    }

    /// Begins a group: says which kind of messages it is of.
    pub fn begin(&mut self)
        ensures kind { self.new.has_asked ≡ asks_next (nat_lt 0 (deque_len self.old.asking))
            (nat_lt 0 (deque_len self.old.doing)) self.old.has_asked }
        ensures same { (line true self.new ≡ line true self.old)
            × (line false self.new ≡ line false self.old) }
    {
        self.has_asked = self.is_next_to_ask();
    }

    /// Takes the message of the group's kind that is in front, if there is room for it and for
    /// those of its call after it.
    pub fn next(&mut self, room: usize) -> Option<Waiting<L>>
        ensures room { is_some result ≡ fits room (line self.old.has_asked self.old) }
        ensures some { IfSome result (λ w. line self.old.has_asked self.old
            ≡ seen w ∷ line self.old.has_asked self.new) }
        ensures none { IfNone result (line self.old.has_asked self.new
            ≡ line self.old.has_asked self.old) }
        ensures others { line (not self.old.has_asked) self.new
            ≡ line (not self.old.has_asked) self.old }
        ensures kind { self.new.has_asked ≡ self.old.has_asked }
    {
        if self.has_asked {
            take_front(&mut self.asking, room)
        } else {
            take_front(&mut self.doing, room)
        }
    }

    /// Ends a group: the session in front of the next one is to lead it. If nobody waits, the next
    /// one that asks leads.
    pub fn pass_on<R: Wait>(&mut self, rt: &R)
        ensures led { self.new.is_led
            ≡ (nat_lt 0 (deque_len self.old.asking) || nat_lt 0 (deque_len self.old.doing)) }
    {
        self.is_led = if self.is_next_to_ask() {
            promote_front(rt, &self.asking)
        } else {
            promote_front(rt, &self.doing)
        };
    }

    // Whether the next group is of Asks and Cancels: if there are some, unless the last one was and
    // others wait.
    fn is_next_to_ask(&self) -> bool
        ensures { result ≡ asks_next (nat_lt 0 (deque_len self.now.asking))
            (nat_lt 0 (deque_len self.now.doing)) self.now.has_asked }
    {
        !self.asking.is_empty() && (self.doing.is_empty() || !self.has_asked)
    }
}

// Whether the caller is to lead. From now on some thread leads.
fn take_lead(is_led: &mut bool) -> bool
    ensures { (result ≡ not is_led.old) × (is_led.new ≡ true) }
{
    let leads = !*is_led;
    *is_led = true;
    leads
}

// A message of the account joins the end of the line.
fn join<L: Ledger>(
    line: &mut VecDeque<Waiting<L>>,
    account: &mut Account<L>,
    message: Message,
    address: ReplySlot<L>,
) -> Result<(), AllocError>
    requires { account.old.asked < MOST_ASKED }
    ensures ok { OnOk result (account.new ≡ account_of account.old.client account.old.deeds
        (account.old.asked + 1) account.old.ring) }
    ensures err { OnErr result ((account.new ≡ account.old) × (line.new.items ≡ line.old.items)) }
    ensures joins { OnOk result (map seen line.new.items
        ≡ map seen line.old.items ++ (message, address, 0) ∷ []) }
{
    line.reserve(1)?;
    let asked = account.ask(address);
    line.push_back_reserved(Waiting {
        message,
        asked,
        behind: 0,
    });
    Ok(())
}

// Messages of the account join the end of the line, one after another.
fn join_all<L: Ledger>(
    line: &mut VecDeque<Waiting<L>>,
    account: &mut Account<L>,
    messages: Vec<(Message, ReplySlot<L>)>,
) -> Result<(), AllocError>
    requires { account.old.asked + vec_len messages ≤ MOST_ASKED }
    ensures ok { OnOk result (account.new ≡ account_of account.old.client account.old.deeds
        (account.old.asked + vec_len messages) account.old.ring) }
    ensures err { OnErr result ((account.new ≡ account.old) × (line.new.items ≡ line.old.items)) }
    ensures joins { OnOk result (map seen line.new.items
        ≡ map seen line.old.items ++ all_seen messages.items) }
{
    line.reserve(messages.len())?;
    let mut behind = messages.len();
    for (message, address) in messages {
        behind -= 1;
        let asked = account.ask(address);
        line.push_back_reserved(Waiting {
            message,
            asked,
            behind,
        });
    }
    Ok(())
}

// Takes the message in front, if there is room for it and for those of its call after it.
fn take_front<L: Ledger>(line: &mut VecDeque<Waiting<L>>, room: usize) -> Option<Waiting<L>>
    ensures room { is_some result ≡ fits room (map seen line.old.items) }
    ensures some { IfSome result (λ w. line.old.items ≡ w ∷ line.new.items) }
    ensures none { IfNone result (line.new.items ≡ line.old.items) }
{
    match line.front() {
        Some(waiting) => {
            if waiting.behind >= room {
                return None;
            }
        }
        None => return None,
    }
    line.pop_front()
}

// Wakes the session in front, which is to lead. Returns whether there is one.
fn promote_front<L: Ledger, R: Wait>(rt: &R, line: &VecDeque<Waiting<L>>) -> bool
    ensures { result ≡ nat_lt 0 (deque_len line.now) }
{
    match line.front() {
        Some(waiting) => {
            waiting.asked.address().lead(rt);
            true
        }
        None => false,
    }
}

// Whether no deed comes of the message.
fn only_asks(message: &Message) -> bool
    ensures { result ≡ spec.only_asks message.now }
{
    match message {
        Message::Ask { .. } | Message::Cancel { .. } => true,
        Message::Hello { .. } | Message::Out { .. } => false,
        Message::Accept { .. } | Message::Leave { .. } => false,
    }
}

// Whether no deed comes of any of these.
fn all_only_ask<L: Ledger>(messages: &[(Message, ReplySlot<L>)]) -> bool
    ensures { result ≡ all_ask messages.now }
{
    let mut rest = messages;
    while let [first, others @ ..] = rest {
        if !only_asks(&first.0) {
            return false;
        }
        rest = others;
    }
    true
}
