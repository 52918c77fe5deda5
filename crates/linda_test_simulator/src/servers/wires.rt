//! Wires of a run: pieces of what clients sent come to the server, and pieces of what it wrote come
//! to clients.

use crate::servers::conn::Conn;
use crate::servers::net::{Shared, drop_front};
use crate::servers::side::Side;
use crate::servers::words::Told;
use crate::servers::world::World;
use linda_test_runs::Tally;
use std::alloc::AllocError;

/// How many messages a client sends again at most.
const MOST_AGAIN: usize = 4;

/// A piece of what a client sent comes.
pub fn deliver<S: Side>(side: &mut S, world: &mut World, at: usize) {
    let Some(conn) = world.conns.get(at) else {
        return;
    };
    let len = world.dice.piece(conn.wire.len());
    deliver_some(side, world, at, len);
}

/// So many bytes of what a client sent come.
pub fn deliver_some<S: Side>(side: &mut S, world: &mut World, at: usize, len: usize) {
    let Some(conn) = world.conns.get_mut(at) else {
        return;
    };
    if len == 0 || conn.wire.is_empty() {
        return;
    }
    bring(&world.net, conn, at, len);
    side.wake(conn.place, false, false);
}

// So many bytes of what a client sent are at the server.
fn bring(net: &Shared, conn: &mut Conn, at: usize, len: usize) {
    let Ok(mut net) = net.try_borrow_mut() else {
        return;
    };
    let net = &mut *net;
    let len = len.min(conn.wire.len());
    if let Some(wire) = net.wires.get_mut(at) {
        if wire.inbox.extend_from_slice(&conn.wire[..len]).is_ok() {
            drop_front(&mut conn.wire, len);
        }
    }
}

/// A piece of what was written to a connection comes to its client, or to nobody.
pub fn fetch<S: Side>(side: &mut S, world: &mut World, at: usize) -> Result<(), AllocError> {
    let written = world.written(at);
    let len = world.dice.piece(written);
    fetch_some(side, world, at, len)
}

/// So many bytes that were written to a connection come to its client, or to nobody.
pub fn fetch_some<S: Side>(
    side: &mut S,
    world: &mut World,
    at: usize,
    len: usize,
) -> Result<(), AllocError> {
    let Some(conn) = world.conns.get_mut(at) else {
        return Ok(());
    };
    if !conn.is_used || !conn.is_read {
        return Ok(());
    }
    let taken = take(&world.net, conn, &mut world.tally, at, len);
    if taken.makes_room {
        side.wake(conn.place, false, true);
    }
    if !taken.is_due {
        world.blame("other bytes were written than were due");
    }
    read(world, at)
}

/// What came of bytes that were taken.
#[derive(Clone, Copy)]
struct Taken {
    /// They were due.
    is_due: bool,
    /// The server waits for room, and there is some.
    makes_room: bool,
}

// So many bytes that were written to a connection are taken.
fn take(net: &Shared, conn: &mut Conn, tally: &mut Tally, at: usize, len: usize) -> Taken {
    let mut taken = Taken {
        is_due: true,
        makes_room: false,
    };
    let Ok(mut net) = net.try_borrow_mut() else {
        return taken;
    };
    let net = &mut *net;
    let Some(wire) = net.wires.get_mut(at) else {
        return taken;
    };
    let len = len.min(wire.outbox.len());
    let bytes = &wire.outbox[..len];
    tally.add(bytes);
    taken.is_due = conn.take(bytes);
    drop_front(&mut wire.outbox, len);
    // What is taken, however slowly, is not given up.
    if conn.is_lost && len > 0 {
        conn.looks = 0;
    }
    if wire.is_blocked && len > 0 {
        wire.is_blocked = false;
        taken.makes_room = true;
    }
    taken
}

// The client of a connection reads the replies that came whole.
fn read(world: &mut World, at: usize) -> Result<(), AllocError> {
    let Some(conn) = world.conns.get_mut(at) else {
        return Ok(());
    };
    let owner = conn.owner;
    let mut wrong = None;
    for _ in 0..conn.coming.len() {
        let Some(told) = conn.next_whole() else {
            break;
        };
        if conn.is_lost {
            continue;
        }
        let Some(client) = world.clients.get_mut(owner) else {
            break;
        };
        wrong = client.hear(told)?.or(wrong);
        if let Told::Welcome { .. } = told {
            for index in 0..MOST_AGAIN {
                if let Some(said) = client.pending(index) {
                    conn.send(said)?;
                }
            }
        }
    }
    if let Some(wrong) = wrong {
        world.blame(wrong);
    }
    Ok(())
}
