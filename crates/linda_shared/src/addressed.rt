//! Messages on their way from a seat.

ghost use Rattle.std.specs.Prelude.{◌≡◌, map, All, length, IfOk};
ghost use Rattle.std.specs.Arc.{arc_value};
ghost use Rattle.linda_shared.specs.Addressed.{up_to};

use linda_shared_queue::{Mailbox, ReplySlot};
use linda_wire::Message;
use std::alloc::{AllocError, Global};
use std::sync::Arc;
use std::sync::ledger::Ledger;

/// A copy of the message, with the address of this place in its client's mailbox.
pub(crate) fn addressed<L: Ledger>(
    alloc: Global,
    mailbox: &Arc<Mailbox<L>, Global>,
    place: usize,
    message: &Message,
) -> Result<(Message, ReplySlot<L>), AllocError>
    ensures message { IfOk result (λ m. m.0 ≡ message.now) }
    ensures to { IfOk result (λ m. (m.1.client ≡ (arc_value mailbox.now).client)
        × (m.1.place ≡ place)) }
{
    let copy = message.try_clone(alloc)?;
    let mailbox = Arc::try_clone(mailbox)?;
    Ok((copy, ReplySlot::new(place, mailbox)))
}

/// A copy of each message, in order, each with the address of a place in its client's mailbox: the
/// place whose number is its position, from 0 on.
pub(crate) fn address_all<L: Ledger>(
    alloc: Global,
    mailbox: &Arc<Mailbox<L>, Global>,
    messages: &[Message],
) -> Result<Vec<(Message, ReplySlot<L>)>, AllocError>
    ensures messages { IfOk result (λ all. map (λ m. m.0) all.items ≡ messages.now) }
    ensures places { IfOk result (λ all.
        map (λ m. m.1.place) all.items ≡ up_to (length messages.now)) }
    ensures to { IfOk result (λ all.
        All (λ m. m.1.client ≡ (arc_value mailbox.now).client) all.items) }
{
    let mut all = Vec::with_capacity(alloc, messages.len())?;
    for place in 0..messages.len() {
        all.push_reserved(addressed(alloc, mailbox, place, &messages[place])?);
    }
    Ok(all)
}
