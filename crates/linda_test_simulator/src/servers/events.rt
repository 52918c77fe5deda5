//! Events of a run: what may happen next, drawn by its dice.

use crate::servers::compare::compare;
use crate::servers::keep::keep;
use crate::servers::machine::Machine;
use crate::servers::net::Pipe;
use crate::servers::rest::rest;
use crate::servers::side::{Loop, Side};
use crate::servers::things::CUTS;
use crate::servers::wires::{deliver, fetch};
use crate::servers::world::World;
use linda_net_relays::Look;
use std::alloc::AllocError;
use std::rc::Rc;
use std::sync::Wait;

/// How many tuples there are at most before clients put no more.
const MOST_TUPLES: usize = 24;

/// A second, in nanoseconds.
const SECOND: u64 = 1_000_000_000;

/// Lets the next thing happen. Says whether the server goes on.
pub fn happen<S: Side, R: Wait>(
    rt: &Machine<'_, R>,
    side: &mut S,
    world: &mut World,
) -> Result<bool, AllocError> {
    world.tally.events = world.tally.events.saturating_add(1);
    let goes_on = happen_some(rt, side, world)?;
    Ok(goes_on && !world.is_over)
}

// The next thing. Says whether the server goes on.
fn happen_some<S: Side, R: Wait>(
    rt: &Machine<'_, R>,
    side: &mut S,
    world: &mut World,
) -> Result<bool, AllocError> {
    let choice = world.dice.below(64);
    if choice < 20 {
        speak(rt, side, world)?;
    } else if choice < 34 {
        if let Some(at) = some_conn(world) {
            deliver(side, world, at);
        }
    } else if choice < 48 {
        let at = some_place(world);
        fetch(side, world, at)?;
    } else if choice < 58 {
        let which = some_loop(world);
        turn(rt, side, world, which);
    } else {
        return seldom(rt, side, world, choice);
    }
    Ok(true)
}

// Something that happens seldom. Says whether the server goes on.
fn seldom<S: Side, R: Wait>(
    rt: &Machine<'_, R>,
    side: &mut S,
    world: &mut World,
    choice: u32,
) -> Result<bool, AllocError> {
    match choice {
        58 => disturb(side, world),
        59 => keep(rt, side, world),
        60 => beat(rt, side, world),
        61 => set_pace(rt, world),
        62 => {
            if world.dice.one_in(8) {
                rest(rt, side, world)?;
            }
        }
        _ => {
            let patience = if world.is_down { 4 } else { 128 };
            return Ok(!world.dice.one_in(patience));
        }
    }
    Ok(true)
}

// Some client.
fn some_client(world: &mut World) -> usize {
    let count = u32::try_from(world.clients.len()).unwrap_or(0);
    world.dice.below(count) as usize
}

// The connection of some client, if it has one.
fn some_conn(world: &mut World) -> Option<usize> {
    let at = some_client(world);
    match world.clients.get(at) {
        Some(client) => client.conn,
        None => None,
    }
}

// A connection of some client, or any place.
fn some_place(world: &mut World) -> usize {
    match some_conn(world) {
        Some(at) => at,
        None => {
            let count = u32::try_from(world.conns.len()).unwrap_or(0);
            world.dice.below(count) as usize
        }
    }
}

// One of the loops; in some runs only the first has connections.
fn some_loop(world: &mut World) -> Loop {
    if world.has_two_loops && world.dice.one_in(2) {
        Loop::Second
    } else {
        Loop::First
    }
}

// Some client says something, or connects.
fn speak<S: Side, R: Wait>(
    rt: &Machine<'_, R>,
    side: &mut S,
    world: &mut World,
) -> Result<(), AllocError> {
    let index = some_client(world);
    let is_full = world.model.items.len() >= MOST_TUPLES;
    let Some(client) = world.clients.get_mut(index) else {
        return Ok(());
    };
    let Some(at) = client.conn else {
        connect(side, world, index, rt.now());
        return Ok(());
    };
    if let Some(said) = client.compose(&mut world.dice, is_full)? {
        if let Some(conn) = world.conns.get_mut(at) {
            conn.send(said)?;
        }
    }
    Ok(())
}

// A client comes, with its number, or with another one if it has left the server.
fn connect<S: Side>(side: &mut S, world: &mut World, index: usize, now: u64) {
    let count = u32::try_from(world.clients.len()).unwrap_or(1);
    let room = world.dice.below(300).saturating_add(1) as usize;
    let which = some_loop(world);
    let Some(at) = world.free_place() else {
        return;
    };
    let Some(client) = world.clients.get_mut(index) else {
        return;
    };
    if client.has_left() || world.dice.one_in(64) {
        let number = client.number.wrapping_add(count);
        client.renew(number);
    }
    if let Ok(mut net) = world.net.try_borrow_mut() {
        let net = &mut *net;
        if let Some(wire) = net.wires.get_mut(at) {
            wire.begin(room);
        }
    }
    let Ok(net) = Rc::clone(&world.net) else {
        return;
    };
    if let Some(place) = side.let_in(which, Pipe::new(net, at)) {
        client.conn = Some(at);
        if let Some(conn) = world.conns.get_mut(at) {
            conn.begin(index, place, now);
        }
    }
}

/// A loop takes what came, and it is compared what it does.
pub fn turn<S: Side, R: Wait>(rt: &Machine<'_, R>, side: &mut S, world: &mut World, which: Loop) {
    if side.count(rt).is_down {
        world.is_down = true;
        world.was_down = true;
    }
    world.begin_call();
    side.turn(rt, which);
    world.end_call();
    world.hear_notes(rt.now());
    compare(rt, side, world, Some(which));
    world.shaky = world.shaky.saturating_sub(1);
}

/// Each loop makes a turn.
pub fn turn_both<S: Side, R: Wait>(rt: &Machine<'_, R>, side: &mut S, world: &mut World) {
    turn(rt, side, world, Loop::First);
    turn(rt, side, world, Loop::Second);
}

// A connection is lost, with a piece of what was sent over it.
fn disturb<S: Side>(side: &mut S, world: &mut World) {
    let Some(at) = some_conn(world) else {
        return;
    };
    world.tally.count(CUTS);
    deliver(side, world, at);
    let choice = world.dice.below(3);
    let Some(conn) = world.conns.get_mut(at) else {
        return;
    };
    conn.is_lost = true;
    conn.looks = 0;
    conn.is_read = choice != 1;
    conn.wire.clear();
    if let Some(client) = world.clients.get_mut(conn.owner) {
        client.lose();
    }
    if let Ok(mut net) = world.net.try_borrow_mut() {
        let net = &mut *net;
        if let Some(wire) = net.wires.get_mut(at) {
            wire.is_shut = true;
            wire.is_cut = choice == 2;
        }
    }
    side.wake(conn.place, true, choice == 2);
}

// A second goes by: clients that hold a tuple and say nothing may be late.
fn beat<S: Side, R: Wait>(rt: &Machine<'_, R>, side: &mut S, world: &mut World) {
    turn_both(rt, side, world);
    rt.pass(SECOND);
    let now = rt.now();
    let seconds = world.lease.unwrap_or(u32::MAX);
    let look = Look { began: now, now };
    side.look(rt, Loop::First, look, seconds);
    side.look(rt, Loop::Second, look, seconds);
    turn_both(rt, side, world);
    world.count_looks();
}

// The machine is slow for a while, or not.
fn set_pace<R: Wait>(rt: &Machine<'_, R>, world: &mut World) {
    match world.dice.below(4) {
        0 => rt.set_pace(2_000_000),
        1 => rt.set_pace(400_000),
        _ => rt.set_pace(1_000),
    }
}
