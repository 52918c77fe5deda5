//! Messages among packets.

ghost use Rattle.std.specs.Prelude.{◌≡◌, IfOk, Some, true};
ghost use Rattle.std.specs.List.{list_all};
ghost use Rattle.linda_world_laws.specs.Steps.{AreMessagesAt};
ghost use Rattle.linda_world.specs.Refusal.{is_message_at, is_message_to};

use linda_wire::Message;
use linda_world_laws::{Body, Packet};
use std::alloc::{AllocError, Global};

/// Whether the packet of this number is a message to the server.
fn is_message(packets: &[Packet], server: u32, k: usize) -> bool
    ensures { result ≡ is_message_at packets.now server k }
{
    match packets.get(k) {
        Some(packet) => is_message_to(packet, server),
        None => false,
    }
}

fn is_message_to(packet: &Packet, server: u32) -> bool
    ensures { result ≡ is_message_to (Some packet.now) server }
{
    packet.server == server && matches!(packet.body, Body::Message(_))
}

/// Whether the packets of these numbers are messages to the server.
pub(crate) fn are_messages(packets: &[Packet], server: u32, ks: &[usize]) -> bool
    ensures { result ≡ list_all (is_message_at packets.now server) ks.now }
{
    for k in ks {
        if !is_message(packets, server, *k) {
            return false;
        }
    }
    true
}

/// The messages to the server that the packets of these numbers are.
pub(crate) fn messages_at(
    alloc: Global,
    packets: &[Packet],
    server: u32,
    ks: &[usize],
) -> Result<Vec<(u32, Message)>, AllocError>
    requires { list_all (is_message_at packets.now server) ks.now ≡ true }
    ensures { IfOk result (λ ms. AreMessagesAt packets.now server ks.now ms.items) }
{
    let mut messages = Vec::new(alloc);
    for k in ks {
        // Each of them is there, and is a message.
        let Some(packet) = packets.get(*k) else {
            return Err(AllocError);
        };
        let Body::Message(message) = &packet.body else {
            return Err(AllocError);
        };
        messages.push((packet.client, message.try_clone(alloc)?))?;
    }
    Ok(messages)
}
