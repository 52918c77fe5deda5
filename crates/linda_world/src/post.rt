//! Packets as they are sent.

ghost use Rattle.std.specs.Prelude.{◌≡◌, ◌++◌, IfOk, OnOk, OnErr, map, option_to_list};
ghost use Rattle.linda_world_laws.specs.World.{sent_by, sent_from};

use linda_wire::{Message, Reply};
use linda_world_laws::{Body, Packet};
use std::alloc::{AllocError, Global};

/// The packets of these messages of a client, each to the server beside it, in order.
///
/// # Errors
///
/// If memory runs out.
pub(crate) fn packets_by(
    alloc: Global,
    client: u32,
    sends: Vec<(u32, Message)>,
) -> Result<Vec<Packet>, AllocError>
    ensures { IfOk result (λ v. v.items ≡ map (sent_by client) sends.items) }
{
    let packet = |(server, message)| Packet {
        server,
        client,
        body: Body::Message(message),
        delivered: false,
    };
    sends.into_iter().map(packet).collect(alloc)
}

/// The packets of these replies of a server, each to the client beside it, in order.
///
/// # Errors
///
/// If memory runs out.
pub(crate) fn packets_from(
    alloc: Global,
    server: u32,
    sends: Vec<(u32, Reply)>,
) -> Result<Vec<Packet>, AllocError>
    ensures { IfOk result (λ v. v.items ≡ map (sent_from server) sends.items) }
{
    let packet = |(client, reply)| Packet {
        server,
        client,
        body: Body::Reply(reply),
        delivered: false,
    };
    sends.into_iter().map(packet).collect(alloc)
}

/// Appends to both lists, so that what a step sends and what it does go together.
///
/// # Errors
///
/// If memory runs out; then both lists are as before.
pub(crate) fn append_both<A: Drop, B: Drop>(
    many: &mut Vec<A>,
    more: Vec<A>,
    few: &mut Vec<B>,
    one: Option<B>,
) -> Result<(), AllocError>
    ensures ok { OnOk result (many.new.items ≡ many.old.items ++ more.items) }
    ensures one { OnOk result (few.new.items ≡ few.old.items ++ option_to_list one) }
    ensures err { OnErr result (many.new.items ≡ many.old.items) }
    ensures none { OnErr result (few.new.items ≡ few.old.items) }
{
    let before = many.len();
    let mut more = more;
    if many.append(&mut more).is_err() {
        return Err(AllocError);
    }
    if let Some(one) = one {
        if few.push(one).is_err() {
            many.truncate(before);
            return Err(AllocError);
        }
        return Ok(());
    }
    Ok(())
}
