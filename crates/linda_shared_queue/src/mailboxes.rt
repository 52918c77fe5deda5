//! The mailboxes of the clients that have a seat.

ghost use Rattle.std.specs.Prelude.{◌≡◌, ℕ, IfSome};
ghost use Rattle.std.specs.Option.{ForSome};
ghost use Rattle.std.specs.Arc.{arc_value};
ghost use Rattle.std.specs.BTreeMap as tree;
ghost use Rattle.std.specs.BTreeMap.{btree_map_len};
ghost use Rattle.std.specs.Ordering.{nat_cmp};

use crate::mailbox::Mailbox;
use std::alloc::{AllocError, Global};
use std::collections::BTreeMap;
use std::sync::ledger::Ledger;
use std::sync::{Arc, Wait};

/// The mailboxes of the clients that have a seat. What is found under a client is its own.
#[derive(Drop)]
pub(crate) struct Mailboxes<L: Ledger> {
    boxes: BTreeMap<u32, Arc<Mailbox<L>, Global>>,
    ghost owned: { (c : ℕ) → ForSome (tree.get nat_cmp boxes c) (λ m. (arc_value m).client ≡ c) },
}

impl<L: Ledger> Mailboxes<L> {
    pub(crate) fn new(alloc: Global) -> Mailboxes<L> {
        Mailboxes {
            boxes: BTreeMap::new(alloc),
        }
    }

    /// How many there are.
    pub(crate) fn len(&self) -> usize
        ensures { result ≡ btree_map_len self.now.boxes }
    {
        self.boxes.len()
    }

    /// The client has this mailbox from now on. The one that it had is returned.
    pub(crate) fn insert(
        &mut self,
        mailbox: Arc<Mailbox<L>, Global>,
    ) -> Result<Option<Arc<Mailbox<L>, Global>>, AllocError> {
        put(&mut self.boxes, mailbox)
    }

    /// The client's mailbox, which is no longer here.
    pub(crate) fn remove(&mut self, client: u32) -> Option<Arc<Mailbox<L>, Global>> {
        self.boxes.remove(&client)
    }

    /// The client's mailbox.
    pub(crate) fn get(&self, client: u32) -> Option<&Arc<Mailbox<L>, Global>>
        ensures { IfSome result (λ m. (arc_value m.now).client ≡ client) }
    {
        match self.boxes.get(&client) {
            Some(mailbox) => Some(mailbox),
            None => None,
        }
    }

    /// All of them end.
    pub(crate) fn end_all<R: Wait>(&self, rt: &R) {
        for mailbox in self.boxes.values() {
            mailbox.end(rt);
        }
    }
}

// Puts a mailbox under its client. If each was under its own before, each is.
fn put<L: Ledger>(
    boxes: &mut BTreeMap<u32, Arc<Mailbox<L>, Global>>,
    mailbox: Arc<Mailbox<L>, Global>,
) -> Result<Option<Arc<Mailbox<L>, Global>>, AllocError>
    ensures { ((c : ℕ) → ForSome (tree.get nat_cmp boxes.old c) (λ m. (arc_value m).client ≡ c))
        → (c : ℕ) → ForSome (tree.get nat_cmp boxes.new c) (λ m. (arc_value m).client ≡ c) }
{
    let client = mailbox.client();
    let before = boxes.insert(client, mailbox)?;
    Ok(before)
}
