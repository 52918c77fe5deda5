//! Delivery to servers: they take what came over their connections, and see the ends of these.

use crate::clients::cast::{Cast, Refused};
use crate::clients::conn::MOST_MESSAGES;
use crate::clients::draw::torn_of;
use crate::clients::things::{BUSY, FALLS, SNAPSHOTS, STOPS};
use crate::clients::world::World;
use linda_wire::{Message, Refusal, Reply};
use std::alloc::AllocError;

/// So many bytes that were sent over a connection come to its server, which answers. Once nothing
/// more comes it sees that the client has given the connection up.
pub fn deliver<C: Cast>(
    cast: &mut C,
    world: &mut World,
    at: usize,
    len: usize,
) -> Result<(), AllocError> {
    let Some(conn) = world.conns.get_mut(at) else {
        return Ok(());
    };
    if !conn.is_used || conn.is_shut {
        return Ok(());
    }
    match conn.bring(len) {
        Ok(group) => {
            let is_all = conn.is_lost && conn.up.is_empty() && group.len() < MOST_MESSAGES;
            if !group.is_empty() {
                serve(cast, world, at, &group)?;
            }
            if is_all {
                end(cast, world, at)?;
            }
        }
        Err(_) => world.blame("a client sent what is no message"),
    }
    Ok(())
}

// Messages of a connection come, its greeting first.
fn serve<C: Cast>(
    cast: &mut C,
    world: &mut World,
    at: usize,
    group: &[(u32, Message)],
) -> Result<(), AllocError> {
    let Some(conn) = world.conns.get(at) else {
        return Ok(());
    };
    let (server, client, is_greeted) = (conn.server, conn.client, conn.is_greeted);
    if !is_greeted && is_busy(world, at, server, client)? {
        return Ok(());
    }
    match cast.handle(server, group) {
        Ok(sends) => {
            if is_greeted {
                post(world, server, &sends)
            } else {
                greet(world, at, &sends)
            }
        }
        Err(Refused::Down) => fall(cast, world, server),
        Err(Refused::Full) => {
            world.blame("a server found no room");
            Ok(())
        }
    }
}

// Whether another connection has the number of the client, which is refused then.
fn is_busy(world: &mut World, at: usize, server: usize, client: u32) -> Result<bool, AllocError> {
    if world.find_conn(server, client).is_none() {
        return Ok(false);
    }
    world.tally.count(BUSY);
    if let Some(conn) = world.conns.get_mut(at) {
        conn.answer(&Refusal::Busy.reply())?;
    }
    Ok(true)
}

// What a server answered to a greeting goes over its connection.
fn greet(world: &mut World, at: usize, sends: &[(u32, Reply)]) -> Result<(), AllocError> {
    let Some(conn) = world.conns.get_mut(at) else {
        return Ok(());
    };
    for (_, reply) in sends {
        conn.is_greeted = conn.is_greeted || matches!(reply, Reply::Welcome { .. });
        conn.answer(reply)?;
    }
    Ok(())
}

// What a server answered goes to its clients.
fn post(world: &mut World, server: usize, sends: &[(u32, Reply)]) -> Result<(), AllocError> {
    for (client, reply) in sends {
        match world.find_conn(server, *client) {
            Some(conn) => conn.answer(reply)?,
            None => world.blame("a server answered a client that has no connection"),
        }
    }
    Ok(())
}

// A server sees the end of a connection.
fn end<C: Cast>(cast: &mut C, world: &mut World, at: usize) -> Result<(), AllocError> {
    let Some(conn) = world.conns.get_mut(at) else {
        return Ok(());
    };
    if conn.is_shut {
        return Ok(());
    }
    let (server, client, was_greeted) = (conn.server, conn.client, conn.is_greeted);
    conn.is_used = false;
    if !was_greeted {
        return Ok(());
    }
    match cast.close(server, client) {
        Ok(sends) => post(world, server, &sends),
        Err(_) => fall(cast, world, server),
    }
}

// A server is down, as its disk stopped or failed within a call.
fn fall<C: Cast>(cast: &mut C, world: &mut World, server: usize) -> Result<(), AllocError> {
    world.tally.count(FALLS);
    halt(cast, world, server);
    Ok(())
}

/// A server stops between calls.
pub fn stop<C: Cast>(cast: &mut C, world: &mut World, server: usize) {
    world.tally.count(STOPS);
    halt(cast, world, server);
}

// A server stops, and all its connections end.
fn halt<C: Cast>(cast: &mut C, world: &mut World, server: usize) {
    let (left, right) = (torn_of(&mut world.dice), torn_of(&mut world.dice));
    if !cast.stop(server, left, right) {
        world.blame("the run has no memory");
    }
    let World { conns, dice, .. } = world;
    for conn in conns.iter_mut() {
        if conn.is_used && conn.server == server && !conn.is_shut {
            conn.shut(dice);
        }
    }
}

/// A server takes a snapshot.
pub fn snapshot<C: Cast>(cast: &mut C, world: &mut World, server: usize) -> Result<(), AllocError> {
    if !cast.is_up(server) {
        return Ok(());
    }
    world.tally.count(SNAPSHOTS);
    match cast.snapshot(server) {
        Ok(()) => Ok(()),
        Err(_) => fall(cast, world, server),
    }
}
