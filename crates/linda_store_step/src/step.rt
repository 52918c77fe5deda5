//! Steps of a server: for one message the replies, and the deed if there is one.

mod deed;
mod reply;
mod request;

ghost use Rattle.std.specs.Prelude.{◌≡◌, ◌∷◌, [], None, IfOk, OnOk, OnErr};
ghost use Rattle.linda_bag.specs.SearchHints.{AreRight};
ghost use Rattle.linda_store_step.specs.Store.{IsOrderly};
ghost use Rattle.linda_store_step.specs.Looking.{is_held};
ghost use Rattle.linda_store_step.specs.Answer.{IsStep, reply_to_numbered};

use crate::soft::Soft;
use linda_bag::{Bag, SearchHints};
use linda_store_state::{Deed, State};
use linda_wire::{Message, Reply};
use std::alloc::{AllocError, Global};

/// What one message came to.
#[derive(Drop)]
pub struct Step {
    /// The change of the state, if there is one.
    pub deed: Option<Deed>,
    /// The replies with the clients that they go to, in order.
    pub sends: Vec<(u32, Reply)>,
}

/// Does what the message of the client asks, and answers it. The replies are put into `room`, which
/// has none yet, so that memory of an earlier step may be used again.
///
/// # Errors
///
/// `AllocError` if memory runs out, and then the state is as before; nothing is promised about the
/// holds and waits.
pub(crate) fn answer_message<B: Bag>(
    state: &mut State<B>,
    soft: &mut Soft,
    hints: &mut SearchHints,
    alloc: Global,
    client: u32,
    message: &Message,
    room: Vec<(u32, Reply)>,
) -> Result<Step, AllocError>
    requires orderly { IsOrderly state.old soft.old }
    requires room { room.items ≡ [] }
    requires right { AreRight state.old.bag (is_held soft.old.holds) state.old.next hints.old }
    ensures ok { IfOk result (λ s. IsStep state.old soft.old client message.now
        (record { deed = s.deed; sends = s.sends.items; soft = soft.new }) state.new) }
    ensures right { OnOk result (AreRight state.new.bag (is_held soft.new.holds)
        state.new.next hints.new) }
    ensures err { OnErr result (state.new ≡ state.old) }
{
    match reply::to_numbered(state, alloc, client, message)? {
        Some(reply) => only_reply(room, client, reply),
        None => act(state, soft, hints, alloc, client, message, room),
    }
}

// Does what a message asks, if it is not a numbered message that makes no deed.
fn act<B: Bag>(
    state: &mut State<B>,
    soft: &mut Soft,
    hints: &mut SearchHints,
    alloc: Global,
    client: u32,
    message: &Message,
    room: Vec<(u32, Reply)>,
) -> Result<Step, AllocError>
    requires orderly { IsOrderly state.old soft.old }
    requires room { room.items ≡ [] }
    requires right { AreRight state.old.bag (is_held soft.old.holds) state.old.next hints.old }
    requires none { reply_to_numbered state.old client message.now ≡ None }
    ensures ok { IfOk result (λ s. IsStep state.old soft.old client message.now
        (record { deed = s.deed; sends = s.sends.items; soft = soft.new }) state.new) }
    ensures right { OnOk result (AreRight state.new.bag (is_held soft.new.holds)
        state.new.next hints.new) }
    ensures err { OnErr result (state.new ≡ state.old) }
{
    match message {
        Message::Hello { version, fresh, .. } => {
            only_reply(
                room,
                client,
                reply::greeting(state, client, *version, *fresh),
            )
        }
        Message::Out { n, tuple } => deed::put(state, soft, alloc, client, *n, tuple, room),
        Message::Accept { n, ticket, id } => {
            deed::accept(state, soft, alloc, client, *n, *ticket, *id, room)
        }
        Message::Leave { n } => deed::leave(state, soft, hints, alloc, client, *n, room),
        Message::Ask {
            ticket,
            remove,
            template,
        } => request::ask(
            state, soft, hints, alloc, client, *ticket, *remove, template, room,
        ),
        Message::Cancel { ticket } => request::cancel(
            state, soft, hints, alloc, client, *ticket, room,
        ),
    }
}

// A step that makes no deed.
fn only_sends(sends: Vec<(u32, Reply)>) -> Step
    ensures deed { result.deed ≡ None }
    ensures sends { result.sends.items ≡ sends.items }
{
    Step { deed: None, sends }
}

// A step that changes nothing and sends one reply.
fn only_reply(room: Vec<(u32, Reply)>, client: u32, reply: Reply) -> Result<Step, AllocError>
    requires { room.items ≡ [] }
    ensures deed { IfOk result (λ s. s.deed ≡ None) }
    ensures sends { IfOk result (λ s. s.sends.items ≡ (client, reply) ∷ []) }
{
    Ok(only_sends(one_send(room, client, reply)?))
}

/// One reply to a client, in the memory of `room`, which has none.
pub(crate) fn one_send(
    room: Vec<(u32, Reply)>,
    client: u32,
    reply: Reply,
) -> Result<Vec<(u32, Reply)>, AllocError>
    requires { room.items ≡ [] }
    ensures { IfOk result (λ v. v.items ≡ (client, reply) ∷ []) }
{
    let mut sends = room;
    sends.push((client, reply))?;
    Ok(sends)
}
