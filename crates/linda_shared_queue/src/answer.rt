//! Answers to messages, in two copies.

ghost use Rattle.std.specs.Prelude.{◌≡◌, None, is_none, IfSome};
ghost use Rattle.std.specs.Option.{ForSome};

use linda_shared_accounts::{Ack, Effect, Receipt, SharedReceipt};
use std::alloc::Global;
use std::sync::ledger::Ledger;

/// What is reported of a client's message, with a second copy of it: one stays with the session,
/// the other is for the caller that submitted, and has memory of its own. On its way it has the
/// address of its message, and in the mailbox the recipient that waits for it. An answer without a
/// copy is lost: memory ran out, and the message counts as one of a server that went down.
#[derive(Drop)]
pub struct Answer<A: Drop, L: Ledger> {
    address: A,
    answered: Ack<(), L>,
    copy: Option<Effect<Receipt>>,
    ghost same: { ForSome copy (λ told. told ≡ answered.told) },
}

impl<A: Drop, L: Ledger> Answer<A, L> {
    /// The answer with a copy, if there is memory for one.
    pub fn of(alloc: Global, answered: Ack<A, L>) -> Answer<A, L>
        ensures to { result.address ≡ answered.address }
        ensures told { result.answered.told ≡ answered.told }
    {
        let (address, answered) = answered.detach();
        let copy = copy_of(alloc, answered.told());
        Answer {
            address,
            answered,
            copy,
        }
    }

    /// Where it goes.
    pub fn address(&self) -> &A
        ensures { result.now ≡ self.now.address }
    {
        &self.address
    }

    /// Whether it has no copy.
    pub fn is_lost(&self) -> bool
        ensures { result ≡ is_none self.now.copy }
    {
        self.copy.is_none()
    }

    /// Loses it.
    pub fn lose(&mut self)
        ensures lost { self.new.copy ≡ None }
        ensures same { (self.new.address ≡ self.old.address)
            × (self.new.answered.told ≡ self.old.answered.told) }
    {
        self.copy = None;
    }

    /// The address by itself, and the answer for this recipient.
    pub(crate) fn hand_to<B: Drop>(self, recipient: B) -> (A, Answer<B, L>)
        ensures to { (result.0 ≡ self.address) × (result.1.address ≡ recipient) }
        ensures same { (result.1.answered.told ≡ self.answered.told)
            × (result.1.copy ≡ self.copy) }
    {
        let Answer {
            address,
            answered,
            copy,
            ..
        } = self;
        let answer = Answer {
            address: recipient,
            answered,
            copy,
        };
        (address, answer)
    }

    /// The answer and its copy.
    pub fn into_parts(self) -> (Ack<(), L>, Option<Effect<Receipt>>)
        ensures same { IfSome result.1 (λ told. told ≡ result.0.told) }
        ensures parts { (result.0.told ≡ self.answered.told) × (result.1 ≡ self.copy) }
    {
        let Answer { answered, copy, .. } = self;
        (answered, copy)
    }
}

// A copy of what is reported, if there is memory for one.
fn copy_of(alloc: Global, told: &Effect<SharedReceipt>) -> Option<Effect<Receipt>>
    ensures { IfSome result (λ copy. copy ≡ told.now) }
{
    match told {
        Effect::Deed(receipt) => match receipt.get().try_clone(alloc) {
            Ok(copy) => Some(Effect::Deed(copy)),
            Err(_) => None,
        },
        Effect::NoDeed => Some(Effect::NoDeed),
        Effect::Failed(fault) => Some(Effect::Failed(*fault)),
    }
}
