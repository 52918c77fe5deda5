//! Fetching by clients: they take what came over their connections, greetings too, and see the ends
//! of these.

use crate::clients::cast::Cast;
use crate::clients::numbers::{homeward, number_of};
use crate::clients::obey::{call, obey};
use crate::clients::person::Claim;
use crate::clients::things::{GONE, GREETINGS, KEPT, REPEATS};
use crate::clients::words::{Value, value_of};
use crate::clients::world::World;
use linda_client::{Call, Reaction};
use linda_wire::{Message, Refusal, Reply, VERSION};
use std::alloc::AllocError;

/// How many replies come at once at most.
const MOST_REPLIES: u32 = 4_096;

/// A person connects to a server that is up, and greets.
pub fn connect(world: &mut World, owner: usize, server: usize) -> Result<(), AllocError> {
    let Some(at) = world.free_place() else {
        return Ok(());
    };
    let World { persons, conns, .. } = world;
    let (Some(person), Some(conn)) = (persons.get_mut(owner), conns.get_mut(at)) else {
        return Ok(());
    };
    let fresh = person.is_fresh && !person.link(server).is_met;
    conn.begin(owner, person.number, server);
    conn.send(&Message::Hello {
        version: VERSION,
        client: person.number,
        fresh,
    })?;
    if let Some(link) = person.links.get_mut(server) {
        link.conn = Some(at);
        link.is_welcome = false;
    }
    Ok(())
}

/// So many bytes that were sent over a connection come to its client, which reacts.
pub fn fetch<C: Cast>(
    cast: &mut C,
    world: &mut World,
    at: usize,
    len: usize,
) -> Result<(), AllocError> {
    let Some(conn) = world.conns.get_mut(at) else {
        return Ok(());
    };
    if !conn.is_used || conn.is_lost {
        return Ok(());
    }
    let len = len.min(conn.down.len());
    world.tally.add(&conn.down[..len]);
    conn.take(len)?;
    for _ in 0..MOST_REPLIES {
        let Some(reply) = next_reply(world, at) else {
            break;
        };
        hear(cast, world, at, reply)?;
    }
    see_end(world, at);
    Ok(())
}

// The next reply of a connection that its client has not given up.
fn next_reply(world: &mut World, at: usize) -> Option<Reply> {
    let conn = world.conns.get_mut(at)?;
    if conn.is_lost {
        return None;
    }
    match conn.next_reply() {
        Ok(reply) => reply,
        Err(_) => {
            world.blame("a server sent what is no reply");
            None
        }
    }
}

// A client sees that its server has ended the connection.
fn see_end(world: &mut World, at: usize) {
    let Some(conn) = world.conns.get_mut(at) else {
        return;
    };
    if conn.is_used && conn.is_shut && conn.down.is_empty() {
        conn.is_used = false;
        let (owner, server) = (conn.owner, conn.server);
        world.unlink(owner, server);
    }
}

// A reply comes.
fn hear<C: Cast>(
    cast: &mut C,
    world: &mut World,
    at: usize,
    reply: Reply,
) -> Result<(), AllocError> {
    let Some(conn) = world.conns.get(at) else {
        return Ok(());
    };
    let (owner, server) = (conn.owner, conn.server);
    let Some(person) = world.persons.get(owner) else {
        return Ok(());
    };
    if person.link(server).is_welcome {
        return hear_answer(cast, world, owner, server, reply);
    }
    match reply {
        Reply::Welcome { last } => welcome(cast, world, owner, server, last),
        Reply::Refused { code, .. } => {
            if code != Refusal::Busy.code() {
                world.blame("a greeting was refused");
            }
            world.lose(owner, server);
            Ok(())
        }
        _ => {
            world.blame("a greeting was answered otherwise");
            Ok(())
        }
    }
}

// A reply comes to a client that was welcomed.
fn hear_answer<C: Cast>(
    cast: &mut C,
    world: &mut World,
    owner: usize,
    server: usize,
    reply: Reply,
) -> Result<(), AllocError> {
    let mut reply = reply;
    let number = number_of(&reply);
    let mut base = 0;
    if let Some(person) = world.persons.get_mut(owner) {
        if let Some(link) = person.links.get_mut(server) {
            base = link.base;
            link.kept = link.kept.max(number.unwrap_or(0));
        }
    }
    if let Some(n) = number {
        if n <= base {
            hear_kept(world, owner, server, n == base, &reply);
            return Ok(());
        }
        homeward(&mut reply, base);
    }
    let server_number = u32::try_from(server).unwrap_or(0);
    let is_gone = matches!(reply, Reply::Gone { .. });
    call(cast, world, owner, Call::Receive(server_number, reply))?;
    settle_claim(world, owner, server, number, is_gone);
    Ok(())
}

// The Accept of this number is answered.
fn settle_claim(
    world: &mut World,
    owner: usize,
    server: usize,
    number: Option<u64>,
    is_gone: bool,
) {
    if is_gone {
        world.tally.count(GONE);
    }
    if let Some(person) = world.persons.get_mut(owner) {
        if let Some(claim) = person.claim {
            if claim.server == server && Some(claim.n) == number {
                person.claim = None;
            }
        }
    }
}

// A server welcomes a client. What is pending there is sent again.
fn welcome<C: Cast>(
    cast: &mut C,
    world: &mut World,
    owner: usize,
    server: usize,
    last: u64,
) -> Result<(), AllocError> {
    world.tally.count(GREETINGS);
    let Some(person) = world.persons.get_mut(owner) else {
        return Ok(());
    };
    let is_fresh = person.is_fresh;
    let Some(link) = person.links.get_mut(server) else {
        return Ok(());
    };
    let fault = link.judge(last, is_fresh);
    let is_first = !link.is_met;
    link.is_met = true;
    link.is_welcome = true;
    if is_first && !is_fresh {
        link.base = last;
        link.kept = last;
        link.sent = last;
        link.wants_kept = last > 0;
    }
    let asks = if link.wants_kept {
        Some(link.base)
    } else {
        None
    };
    world.blame_if(fault);
    if is_first && !is_fresh {
        settle_old(world, owner, server, last);
    }
    if let Some(n) = asks {
        ask_kept(world, owner, server, n)?;
    }
    send_again(cast, world, owner, server)
}

// A client asks for the reply that is kept for it.
fn ask_kept(world: &mut World, owner: usize, server: usize, n: u64) -> Result<(), AllocError> {
    let World { persons, conns, .. } = world;
    let Some(person) = persons.get(owner) else {
        return Ok(());
    };
    if let Some(at) = person.link(server).conn {
        if let Some(conn) = conns.get_mut(at) {
            conn.send(&Message::Accept {
                n,
                ticket: 0,
                id: 0,
            })?;
        }
    }
    Ok(())
}

// What is pending at a server is sent again.
fn send_again<C: Cast>(
    cast: &mut C,
    world: &mut World,
    owner: usize,
    server: usize,
) -> Result<(), AllocError> {
    let number = u32::try_from(server).unwrap_or(0);
    match cast.call(owner, Call::Reconnected(number)) {
        Ok(reaction) => {
            note_again(world, owner, server, &reaction);
            obey(world, owner, reaction)
        }
        Err(_) => Err(AllocError),
    }
}

// Whether asks were sent again to a server is noted.
fn note_again(world: &mut World, owner: usize, server: usize, reaction: &Reaction) {
    let asked = reaction
        .packets
        .iter()
        .any(|packet| matches!(packet.1, Message::Ask { .. }));
    if let Some(person) = world.persons.get_mut(owner) {
        if let Some(link) = person.links.get_mut(server) {
            link.asked_again = link.asked_again || asked;
        }
    }
    if !reaction.packets.is_empty() {
        world.tally.count(REPEATS);
    }
}

// What a client had unanswered at a server before this life was not done, if its number is above
// the last that is kept.
fn settle_old(world: &mut World, owner: usize, server: usize, last: u64) {
    let Some(person) = world.persons.get_mut(owner) else {
        return;
    };
    let mut fault = None;
    if let Some(claim) = person.claim {
        if claim.server == server {
            fault = late(claim.n, last);
            if claim.n > last {
                person.claim = None;
            }
        }
    }
    if let Some(number) = person.row {
        if let Some(row) = world.rows.find(number) {
            if row.server == server {
                fault = fault.or(late(row.n, last));
                if row.n > last {
                    row.is_void = true;
                    person.row = None;
                    if row.id != 0 {
                        fault = Some("a server has forgotten a tuple that it had");
                    }
                }
            }
        }
    }
    world.blame_if(fault);
}

// What is wrong with a last number, if this one was unanswered.
fn late(n: u64, last: u64) -> Option<&'static str> {
    if n < last {
        Some("a server keeps more than a client of it ever sent")
    } else {
        None
    }
}

// The reply that a server kept for a client comes.
fn hear_kept(world: &mut World, owner: usize, server: usize, is_last: bool, reply: &Reply) {
    world.tally.count(KEPT);
    if !is_last {
        world.blame("a server answered with a number that is old");
    }
    if let Some(person) = world.persons.get_mut(owner) {
        if let Some(link) = person.links.get_mut(server) {
            link.wants_kept = false;
        }
    }
    let fault = match reply {
        Reply::Stored { id, .. } => hear_stored(world, owner, server, *id),
        Reply::Taken { id, tuple, .. } => hear_taken(world, owner, server, *id, value_of(tuple)),
        Reply::Gone { .. } => hear_gone(world, owner, server),
        _ => Some("a kept reply is none of its client"),
    };
    world.blame_if(fault);
}

// A tuple is stored that a client put before this life. Returns what is wrong with it.
fn hear_stored(world: &mut World, owner: usize, server: usize, id: u64) -> Option<&'static str> {
    let person = world.persons.get_mut(owner)?;
    let row = world.rows.find(person.row?)?;
    if row.server != server {
        return None;
    }
    let value = row.value;
    person.row = None;
    world.rows.meet(server, id, Some(value)).err()
}

// A tuple is taken that a client accepted before this life. Returns what is wrong with it.
fn hear_taken(
    world: &mut World,
    owner: usize,
    server: usize,
    id: u64,
    value: Option<Value>,
) -> Option<&'static str> {
    let person = world.persons.get_mut(owner)?;
    if is_claim(person.claim, server, id) {
        person.claim = None;
        return world.rows.take(server, id, value, world.tally.events);
    }
    if world.rows.has_taken(value) {
        None
    } else {
        Some("a kept reply has a tuple that its client did not take")
    }
}

// A tuple is gone that a client accepted before this life.
fn hear_gone(world: &mut World, owner: usize, server: usize) -> Option<&'static str> {
    let person = world.persons.get_mut(owner)?;
    if let Some(claim) = person.claim {
        if claim.server == server {
            person.claim = None;
        }
    }
    None
}

// Whether an Accept that is not answered is of this tuple.
fn is_claim(claim: Option<Claim>, server: usize, id: u64) -> bool {
    match claim {
        Some(claim) => claim.server == server && claim.id == id,
        None => false,
    }
}
