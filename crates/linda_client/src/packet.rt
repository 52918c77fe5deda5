//! Packets: messages with the servers that they go to.

ghost use Rattle.std.specs.Prelude.{◌≡◌, [], ◌∷◌, ◌++◌, ◌==◌, filter, IfOk, OnOk};
ghost use Rattle.linda_client.specs.Packets.{asks_to_all, cancels_of, is_spared};

use crate::ask::Ask;
use linda_wire::Message;
use std::alloc::{AllocError, Global};

/// One message to one server.
pub(crate) fn one_packet(
    alloc: Global,
    server: u32,
    message: Message,
) -> Result<Vec<(u32, Message)>, AllocError>
    ensures { IfOk result (λ v. v.items ≡ (server, message) ∷ []) }
{
    let mut packets = Vec::with_capacity(alloc, 1)?;
    packets.push((server, message))?;
    Ok(packets)
}

/// Appends what the ticket asks, to each server in turn.
pub(crate) fn push_asked(
    alloc: Global,
    servers: u32,
    ticket: u64,
    ask: &Ask,
    packets: &mut Vec<(u32, Message)>,
) -> Result<(), AllocError>
    ensures { OnOk result (packets.new.items
        ≡ packets.old.items ++ asks_to_all servers (ticket, ask.now)) }
{
    for server in 0..servers {
        packets.push((server, ask.message(alloc, ticket)?))?;
    }
    Ok(())
}

/// Appends a Cancel of the ticket to each server in turn, unless server and ticket are spared.
pub(crate) fn push_cancelled(
    servers: u32,
    spared: Option<(u32, u64)>,
    ticket: u64,
    packets: &mut Vec<(u32, Message)>,
) -> Result<(), AllocError>
    ensures { OnOk result (packets.new.items
        ≡ packets.old.items ++ cancels_of servers spared ticket) }
{
    for server in 0..servers {
        if !is_spared(spared, server, ticket) {
            packets.push((server, Message::Cancel { ticket }))?;
        }
    }
    Ok(())
}

/// Keeps the packets to this server, in order.
pub(crate) fn retain_to(server: u32, packets: &mut Vec<(u32, Message)>)
    ensures { packets.new.items ≡ filter (λ p. p.0 == server) packets.old.items }
{
    packets.retain(|packet| packet.0 == server);
}

/// Whether the server and the ticket are those that are spared.
fn is_spared(spared: Option<(u32, u64)>, server: u32, ticket: u64) -> bool
    ensures { result ≡ is_spared spared (server, ticket) }
{
    match spared {
        Some(own) => own.0 == server && own.1 == ticket,
        None => false,
    }
}
