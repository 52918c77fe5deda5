//! Served group: the messages of a group, each with its answer.

ghost use Rattle.std.specs.Prelude.{◌≡◌, ◌∷◌, [], length, IfSome, IfNone};
ghost use Rattle.linda_shared.specs.Group.{group_of};

use crate::group::MessageGroup;
use linda_shared_accounts::{Ack, PendingAck};
use linda_wire::Message;
use std::marker::Model;
use std::sync::ledger::Ledger;

/// The messages of a group that was served, each with its client and its answer. Only the server
/// makes one. Contracts see both, in order.
#[derive(Drop)]
pub struct ServedGroup<A: Drop, L: Ledger> {
    pub(crate) room: usize,
    // The first one last, as the answers come.
    pub(crate) messages: Vec<(u32, Message)>,
    pub(crate) answered: Vec<Ack<A, L>>,
    // Room for what is asked next.
    pub(crate) asked: Vec<PendingAck<A, L>>,
}

impl<A: Drop, L: Ledger> Model for ServedGroup<A, L> {
    ghost use Rattle.std.specs.Prelude.{◌≡◌, ◌≤◌, [], reverse, vec_len, vec_capacity};
    ghost use Rattle.linda_store_step.specs.declared.size.TheConstants.{MAX_GROUP};
    ghost use Rattle.linda_shared.specs.Group as seen;
    ghost use Rattle.linda_shared.specs.Group.{served_of, pairs};

    ghost Value = { seen.ServedGroup A L };

    ghost view = { λ s. served_of s.room
        (pairs (reverse s.messages.items) (reverse s.answered.items)) };

    ghost invariant = { λ s. (vec_len s.answered ≡ vec_len s.messages)
        × (s.asked.items ≡ [])
        × (s.room ≤ MAX_GROUP)
        × (s.room ≤ vec_capacity s.messages) × (s.room ≤ vec_capacity s.asked)
        × (s.room ≤ vec_capacity s.answered) };
}

impl<A: Drop, L: Ledger> ServedGroup<A, L> {
    /// How many messages are here.
    pub fn len(&self) -> usize
        ensures { result ≡ length self.now.answers }
    {
        self.messages.len()
    }

    /// The next message, in order, with its client and its own answer; none once all are taken.
    pub fn next(&mut self) -> Option<(u32, Message, Ack<A, L>)>
        ensures next { IfSome result (λ r.
            self.old.answers ≡ ((r.0, r.1), r.2) ∷ self.new.answers) }
        ensures none { IfNone result (self.old.answers ≡ []) }
        ensures room { self.new.room ≡ self.old.room }
    {
        let (Some((client, message)), Some(answered)) = (self.messages.pop(), self.answered.pop())
        else {
            return None;
        };
        Some((client, message, answered))
    }

    /// The room of these messages, for others. What was not taken is dropped.
    pub fn into_group(self) -> MessageGroup<A, L>
        ensures { result ≡ group_of self.room [] [] }
    {
        let ServedGroup {
            room,
            mut messages,
            asked,
            mut answered,
        } = self;
        messages.clear();
        answered.clear();
        MessageGroup {
            room,
            messages,
            asked,
            answered,
        }
    }
}
