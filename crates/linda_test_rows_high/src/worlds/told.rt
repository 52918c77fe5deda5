//! Words for what comes of an event, and for what a world shows.

use linda_client::{Got, Outcome};
use linda_store::{Deed, Node};
use linda_wire::{Message, Reply};
use linda_world::{Body, Packet, Seen, World};
use std::alloc::AllocError;

/// What is said of an event: of a server that it served, or was full; of a client what it got.
pub fn push_seen(out: &mut String, seen: &Seen) -> Result<(), AllocError> {
    match seen.client {
        Some(client) => write!(out, "{client}")?,
        None => out.push_str(if seen.full { "full" } else { "served" })?,
    }
    if let Some(outcome) = &seen.outcome {
        push_outcome(out, outcome)?;
    }
    if let Some((server, code, detail)) = seen.fault {
        write!(out, " refused {code} {detail} by {server}")?;
    }
    Ok(())
}

fn push_outcome(out: &mut String, outcome: &Outcome) -> Result<(), AllocError> {
    match outcome {
        Outcome::Stored { server, id } => write!(out, " stored {server} {id}"),
        Outcome::Synced { got, .. } => push_got(out, got),
        Outcome::Dropped { .. } => out.push_str(" dropped"),
        Outcome::Left => out.push_str(" left"),
    }
}

fn push_got(out: &mut String, got: &Got) -> Result<(), AllocError> {
    match got {
        Got::Took { server, id, .. } => write!(out, " took {server} {id}"),
        Got::Copied { server, id, .. } => write!(out, " read {server} {id}"),
        Got::Alarm => out.push_str(" alarm"),
        Got::Always(_) => out.push_str(" value"),
    }
}

/// The packets from this number on, each with its number, its sender, its receiver and what it
/// says.
pub fn push_packets(out: &mut String, packets: &[Packet], first: usize) -> Result<(), AllocError> {
    for (k, packet) in packets.iter().enumerate() {
        if k >= first {
            write!(out, "; {k}: ")?;
            push_packet(out, packet)?;
        }
    }
    Ok(())
}

fn push_packet(out: &mut String, packet: &Packet) -> Result<(), AllocError> {
    let (server, client) = (packet.server, packet.client);
    match &packet.body {
        Body::Message(message) => {
            write!(out, "{client} to {server} ")?;
            push_message(out, message)
        }
        Body::Reply(reply) => {
            write!(out, "{server} to {client} ")?;
            push_reply(out, reply)
        }
    }
}

fn push_message(out: &mut String, message: &Message) -> Result<(), AllocError> {
    match message {
        Message::Hello { .. } => out.push_str("hello"),
        Message::Out { n, .. } => write!(out, "out {n}"),
        Message::Ask { ticket, .. } => write!(out, "ask {ticket}"),
        Message::Accept { n, ticket, id } => write!(out, "accept {n} {ticket} {id}"),
        Message::Cancel { ticket } => write!(out, "cancel {ticket}"),
        Message::Leave { n } => write!(out, "leave {n}"),
    }
}

fn push_reply(out: &mut String, reply: &Reply) -> Result<(), AllocError> {
    match reply {
        Reply::Welcome { last } => write!(out, "welcome {last}"),
        Reply::Stored { n, id } => write!(out, "stored {n} {id}"),
        Reply::Offer { ticket, id, .. } => write!(out, "offer {ticket} {id}"),
        Reply::Read { ticket, id, .. } => write!(out, "read {ticket} {id}"),
        Reply::Taken { n, id, .. } => write!(out, "taken {n} {id}"),
        Reply::Gone { n } => write!(out, "gone {n}"),
        Reply::Refused { code, detail } => write!(out, "refused {code} {detail}"),
        Reply::Left { n } => write!(out, "left {n}"),
    }
}

/// What servers 0 and 1 did, what clients 7 and 8 were given, and the numbers of the packets that
/// were never delivered.
pub fn push_end<N: Node>(out: &mut String, world: &World<N>) -> Result<(), AllocError> {
    push_deeds(out, 0, world.deeds(0))?;
    out.push_str("; ")?;
    push_deeds(out, 1, world.deeds(1))?;
    push_given(out, 7, world.got(7))?;
    push_given(out, 8, world.got(8))?;
    push_lost(out, world.packets())
}

fn push_deeds(out: &mut String, server: u32, deeds: &[Deed]) -> Result<(), AllocError> {
    write!(out, "server {server}")?;
    for deed in deeds {
        push_deed(out, deed)?;
    }
    Ok(())
}

fn push_deed(out: &mut String, deed: &Deed) -> Result<(), AllocError> {
    match deed {
        Deed::Out { client, n, .. } => write!(out, ", out {client} {n}"),
        Deed::Take { client, n, id } => write!(out, ", take {client} {n} {id}"),
        Deed::Pass { client, n, id } => write!(out, ", pass {client} {n} {id}"),
        Deed::Leave { client, n } => write!(out, ", leave {client} {n}"),
    }
}

fn push_given(out: &mut String, client: u32, given: &[(u32, u64)]) -> Result<(), AllocError> {
    write!(out, "; client {client}")?;
    for (server, id) in given {
        write!(out, ", {server} {id}")?;
    }
    Ok(())
}

fn push_lost(out: &mut String, packets: &[Packet]) -> Result<(), AllocError> {
    out.push_str("; lost")?;
    for (k, packet) in packets.iter().enumerate() {
        if !packet.delivered {
            write!(out, ", {k}")?;
        }
    }
    Ok(())
}
