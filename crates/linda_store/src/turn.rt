//! One message of a connection: the greeting first, then the node's replies to the greeted client.

ghost use Rattle.std.specs.Prelude.{◌≡◌, ◌++◌, ◌∷◌, [], IsTrue, IfOk, OnOk, None, Some, true};
ghost use Rattle.std.specs.List.{list_any};
ghost use Rattle.linda_wire.specs.Refusal.{refused};
ghost use Rattle.linda_store.specs.Node.{node_answer};
ghost use Rattle.linda_store.specs.Turn.{is_welcome, replies_for, told, goes_on, hello_of};
ghost use Rattle.linda_store.specs.Turn.{point_at};
ghost use Rattle.linda_store.specs.Turn.{greeted_by, greeted_if, IsAsked, HasSaid, Turns};

use crate::node::{Node, NodeFault};
use linda_wire::{Message, Refusal, Reply};
use std::alloc::{AllocError, Global};

/// Answers one message, and says whether the connection goes on. If memory runs out for a reply,
/// the node may have taken the message, and who is greeted is as it would be with the reply.
pub(crate) fn turn<N: Node>(
    alloc: Global,
    greeted: &mut Option<u32>,
    node: &mut N,
    message: &Message,
    replies: &mut Vec<Reply>,
) -> Result<bool, AllocError>
    ensures { HasSaid
        (λ is_open said. Turns (point_at (N.shown node.old) greeted.old true) message.now said
        (point_at (N.shown node.new) greeted.new is_open))
        replies.old.items result replies.new.items }
{
    match *greeted {
        None => match hello_of(message) {
            Some(client) => greet(alloc, greeted, node, client, message, replies),
            None => turn_away(Refusal::NoHello, replies),
        },
        Some(client) => match hello_of(message) {
            Some(_) => turn_away(Refusal::Busy, replies),
            None => ask(alloc, node, client, message, replies),
        },
    }
}

// The client that a Hello names; `None` if the message is no Hello.
fn hello_of(message: &Message) -> Option<u32>
    ensures { result ≡ hello_of message.now }
{
    match message {
        Message::Hello { client, .. } => Some(*client),
        Message::Out { .. } => None,
        Message::Ask { .. } => None,
        Message::Accept { .. } => None,
        Message::Cancel { .. } => None,
        Message::Leave { .. } => None,
    }
}

// Refuses a message without asking the node; the connection goes on.
fn turn_away(refusal: Refusal, replies: &mut Vec<Reply>) -> Result<bool, AllocError>
    ensures told { OnOk result (replies.new.items ≡ replies.old.items ++ refused refusal ∷ []) }
    ensures goes_on { IfOk result (λ goes. IsTrue goes) }
{
    replies.push(refusal.reply())?;
    Ok(true)
}

// Asks the node for a client that nobody greeted yet; if the node welcomes it, it is greeted.
fn greet<N: Node>(
    alloc: Global,
    greeted: &mut Option<u32>,
    node: &mut N,
    client: u32,
    message: &Message,
    replies: &mut Vec<Reply>,
) -> Result<bool, AllocError>
    requires { greeted.old ≡ None }
    ensures { HasSaid
        (λ is_open said.
        IsAsked client message.now (greeted_by client) (point_at (N.shown node.old) None true)
        said
        (point_at (N.shown node.new) greeted.new is_open))
        replies.old.items result replies.new.items }
{
    let answer = node.handle(alloc, client, message);
    if is_welcomed(client, &answer) {
        *greeted = Some(client);
    }
    tell(client, answer, replies)
}

// Asks the node for the greeted client.
fn ask<N: Node>(
    alloc: Global,
    node: &mut N,
    client: u32,
    message: &Message,
    replies: &mut Vec<Reply>,
) -> Result<bool, AllocError>
    ensures { HasSaid
        (λ is_open said. IsAsked client message.now (λ _. Some client)
        (point_at (N.shown node.old) (Some client) true) said
        (point_at (N.shown node.new) (Some client) is_open))
        replies.old.items result replies.new.items }
{
    let answer = node.handle(alloc, client, message);
    tell(client, answer, replies)
}

// Says to a client what the node answered, and whether the connection goes on.
fn tell(
    client: u32,
    answer: Result<Vec<(u32, Reply)>, NodeFault>,
    replies: &mut Vec<Reply>,
) -> Result<bool, AllocError>
    ensures told { OnOk result (replies.new.items
        ≡ replies.old.items ++ told client (node_answer answer)) }
    ensures goes_on { IfOk result (λ goes. goes ≡ goes_on (node_answer answer)) }
{
    match answer {
        Ok(sends) => {
            push_replies(client, sends, replies)?;
            Ok(true)
        }
        Err(fault) => match fault {
            NodeFault::Full => turn_away(Refusal::Full, replies),
            NodeFault::Down => {
                turn_away(Refusal::Down, replies)?;
                Ok(false)
            }
        },
    }
}

// Pushes those replies that go to the client, and lets the others go.
fn push_replies(
    client: u32,
    sends: Vec<(u32, Reply)>,
    replies: &mut Vec<Reply>,
) -> Result<(), AllocError>
    ensures { OnOk result (replies.new.items
        ≡ replies.old.items ++ replies_for client sends.items) }
{
    for (to, reply) in sends {
        if to == client {
            replies.push(reply)?;
        }
    }
    Ok(())
}

// Whether the node welcomes the client.
fn is_welcomed(client: u32, answer: &Result<Vec<(u32, Reply)>, NodeFault>) -> bool
    ensures { greeted_by client (node_answer answer.now) ≡ greeted_if result client }
{
    match answer {
        Ok(sends) => has_welcome(client, sends),
        Err(fault) => match fault {
            NodeFault::Full => false,
            NodeFault::Down => false,
        },
    }
}

// Whether some reply to the client is a Welcome.
fn has_welcome(client: u32, sends: &[(u32, Reply)]) -> bool
    ensures { result ≡ list_any is_welcome (replies_for client sends.now) }
{
    match sends {
        [] => false,
        [send, later @ ..] => {
            let is_one = send.0 == client && matches!(send.1, Reply::Welcome { .. });
            is_one || has_welcome(client, later)
        }
    }
}
