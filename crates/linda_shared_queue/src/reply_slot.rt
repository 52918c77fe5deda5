//! Addresses: where the answer to a message goes.

ghost use Rattle.std.specs.Prelude.{◌≡◌};
ghost use Rattle.std.specs.Arc.{arc_value};

use crate::mailbox::Mailbox;
use crate::recipient::Recipient;
use std::alloc::Global;
use std::sync::ledger::Ledger;
use std::sync::{Arc, Wait};

/// Where the answer to a message goes: a place in the mailbox of the client that sent it.
#[derive(Drop)]
pub struct ReplySlot<L: Ledger> {
    client: u32,
    place: usize,
    mailbox: Arc<Mailbox<L>, Global>,
    ghost owner: { (arc_value mailbox).client ≡ client },
}

impl<L: Ledger> ReplySlot<L> {
    /// The place of this number in the mailbox.
    pub fn new(place: usize, mailbox: Arc<Mailbox<L>, Global>) -> ReplySlot<L>
        ensures { (result.client ≡ (arc_value mailbox).client) × (result.place ≡ place) }
    {
        let client = mailbox.client();
        ReplySlot {
            client,
            place,
            mailbox,
        }
    }

    /// The client that sent the message.
    pub fn client(&self) -> u32
        ensures { result ≡ self.now.client }
    {
        self.client
    }

    /// Who waits there.
    pub(crate) fn recipient(&self) -> Recipient
        ensures { (result.client ≡ self.now.client) × (result.place ≡ self.now.place) }
    {
        Recipient::new(self.client, self.place)
    }

    /// The mailbox by itself.
    pub(crate) fn into_mailbox(self) -> Arc<Mailbox<L>, Global>
        ensures { (arc_value result).client ≡ self.client }
    {
        let ReplySlot { mailbox, .. } = self;
        mailbox
    }

    /// The session is to serve the next group.
    pub(crate) fn lead<R: Wait>(&self, rt: &R) {
        self.mailbox.lead(rt);
    }
}
