//! Group of messages that go to the server together.

ghost use Rattle.std.specs.Prelude.{◌≡◌, ◌+◌, ◌<◌, ◌≤◌, ◌++◌, ◌∷◌, [], true, length, map, All};
ghost use Rattle.std.specs.Prelude.{nat_lt, not, IfOk};
ghost use Rattle.linda_shared_accounts.specs.Account.{account_of};
ghost use Rattle.linda_shared_accounts.specs.declared.limits.TheConstants.{MOST_ASKED};
ghost use Rattle.linda_store_step.specs.declared.size.TheConstants.{MAX_GROUP};
ghost use Rattle.linda_shared.specs.Group.{group_of, told_in, AreTold, IsEffectOf};

use crate::served::ServedGroup;
use linda_disk::Disk;
use linda_shared_accounts::{Account, Ack, PendingAck};
use linda_shared_held::Held;
use linda_store_step::MAX_GROUP;
use linda_wire::Message;
use std::alloc::{AllocError, Global};
use std::marker::Model;
use std::sync::ledger::Ledger;

/// Messages that go to the server together, each with its client, the address of its answer and
/// its part of the ledger. There is room for a given number, and for their answers, so nothing that
/// it does takes memory. Contracts see the messages and the addresses, in order.
#[derive(Drop)]
pub struct MessageGroup<A: Drop, L: Ledger> {
    pub(crate) room: usize,
    pub(crate) messages: Vec<(u32, Message)>,
    pub(crate) asked: Vec<PendingAck<A, L>>,
    // Room for the answers.
    pub(crate) answered: Vec<Ack<A, L>>,
}

impl<A: Drop, L: Ledger> Model for MessageGroup<A, L> {
    ghost use Rattle.std.specs.Prelude.{◌≡◌, ◌≤◌, [], map, vec_len, vec_capacity};
    ghost use Rattle.linda_store_step.specs.declared.size.TheConstants.{MAX_GROUP};
    ghost use Rattle.linda_shared.specs.Group as seen;
    ghost use Rattle.linda_shared.specs.Group.{group_of};

    ghost Value = { seen.MessageGroup A };

    ghost view = { λ g. group_of g.room g.messages.items (map (λ a. a.address) g.asked.items) };

    ghost invariant = { λ g. (vec_len g.asked ≡ vec_len g.messages)
        × (g.answered.items ≡ [])
        × (vec_len g.messages ≤ g.room) × (g.room ≤ MAX_GROUP)
        × (g.room ≤ vec_capacity g.messages) × (g.room ≤ vec_capacity g.asked)
        × (g.room ≤ vec_capacity g.answered) };
}

impl<A: Drop, L: Ledger> MessageGroup<A, L> {
    /// Nothing is asked, and there is room for so many messages.
    ///
    /// # Errors
    ///
    /// `AllocError`: nothing was made.
    pub fn new(alloc: Global, room: usize) -> Result<MessageGroup<A, L>, AllocError>
        requires { room ≤ MAX_GROUP }
        ensures { IfOk result (λ g. g ≡ group_of room [] []) }
    {
        let messages = Vec::with_capacity(alloc, room)?;
        let asked = Vec::with_capacity(alloc, room)?;
        let answered = Vec::with_capacity(alloc, room)?;
        Ok(MessageGroup {
            room,
            messages,
            asked,
            answered,
        })
    }

    /// Nothing is asked, and there is no room. It takes no memory: for the place of a group that
    /// is being served.
    pub fn placeholder(alloc: Global) -> MessageGroup<A, L>
        ensures { result ≡ group_of 0 [] [] }
    {
        MessageGroup {
            room: 0,
            messages: Vec::new(alloc),
            asked: Vec::new(alloc),
            answered: Vec::new(alloc),
        }
    }

    /// How many messages are here.
    pub fn len(&self) -> usize
        ensures is { result ≡ length self.now.messages }
        ensures few { result ≤ self.now.room }
    {
        self.messages.len()
    }

    /// Whether there is room for one message more.
    pub fn has_room(&self) -> bool
        ensures is { result ≡ nat_lt (length self.now.messages) self.now.room }
        ensures room { result ≡ true → length self.now.messages < self.now.room }
    {
        self.messages.len() < self.room
    }

    /// This message of this client, which was asked so, joins the others.
    pub(crate) fn push(&mut self, client: u32, message: Message, asked: PendingAck<A, L>)
        requires { length self.old.messages < self.old.room }
        ensures { self.new ≡ group_of self.old.room (self.old.messages ++ (client, message) ∷ [])
            (self.old.addresses ++ asked.address ∷ []) }
    {
        self.messages.push_reserved((client, message));
        self.asked.push_reserved(asked);
    }

    /// Serves all that was asked, as one step of the server after another.
    pub(crate) fn serve<D: Disk>(self, alloc: Global, held: &mut Held<D, L>) -> ServedGroup<A, L>
        // Each message has an answer, in order, and that has its address;
        ensures each { map (λ a. a.0) result.answers ≡ self.messages }
        ensures addresses { map (λ a. a.1.address) result.answers ≡ self.addresses }
        ensures room { result.room ≡ self.room }
        // what is reported is what the server says of these messages,
        ensures told { AreTold D D.Disk (not held.new.server.down) self.messages
            (told_in result) }
        // and so a deed is one that its own message asks for.
        ensures own { All (λ a. IsEffectOf a.0 a.1.told) result.answers }
    {
        let MessageGroup {
            room,
            mut messages,
            mut asked,
            mut answered,
        } = self;
        held.make_room(alloc, &messages);
        let _ = held.handle_all(alloc, &messages, &mut asked, &mut answered);
        messages.reverse();
        ServedGroup {
            room,
            messages,
            asked,
            answered,
        }
    }
}

impl<L: Ledger> MessageGroup<usize, L> {
    /// A message of this account goes on its way. Its answer comes back with this key.
    pub fn ask(&mut self, account: &mut Account<L>, key: usize, message: Message)
        requires room { length self.old.messages < self.old.room }
        requires few { account.old.asked < MOST_ASKED }
        ensures account { account.new ≡ account_of account.old.client account.old.deeds
            (account.old.asked + 1)
            account.old.ring }
        ensures group { self.new ≡ group_of self.old.room
            (self.old.messages ++ (account.old.client, message) ∷ [])
            (self.old.addresses ++ key ∷ []) }
    {
        let client = account.client();
        let asked = account.ask(key);
        self.push(client, message, asked);
    }
}
