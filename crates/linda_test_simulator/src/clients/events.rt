//! Events of a run: what may happen next, drawn by its dice.

use crate::clients::cast::{Cast, Opened};
use crate::clients::deliver::{deliver, snapshot, stop};
use crate::clients::draw::{Trouble, trouble_of};
use crate::clients::fetch::fetch;
use crate::clients::look::look;
use crate::clients::rest::rest;
use crate::clients::tasks::{abandon, act, halt, tick};
use crate::clients::things::CUTS;
use crate::clients::world::World;
use std::alloc::AllocError;

/// Lets the next thing happen.
pub fn happen<C: Cast>(cast: &mut C, world: &mut World) -> Result<(), AllocError> {
    world.tally.events = world.tally.events.saturating_add(1);
    let choice = world.dice.below(64);
    let (persons, conns) = (world.persons.len(), world.conns.len());
    let (owner, from) = (world.some(persons), world.some(conns));
    if choice < 12 {
        act(cast, world, owner)
    } else if choice < 34 {
        let (at, len) = next_up(world, from);
        let len = world.dice.piece(len);
        deliver(cast, world, at, len)
    } else if choice < 56 {
        let (at, len) = next_down(world, from);
        let len = world.dice.piece(len);
        fetch(cast, world, at, len)
    } else if choice < 58 {
        tick(cast, world, owner)
    } else {
        seldom(cast, world, owner, choice)
    }
}

// Something that happens seldom.
fn seldom<C: Cast>(
    cast: &mut C,
    world: &mut World,
    owner: usize,
    choice: u32,
) -> Result<(), AllocError> {
    let server = world.some(world.servers);
    let trouble = (trouble_of(&mut world.dice), trouble_of(&mut world.dice));
    let chance = world.dice.below(64);
    match (choice, chance) {
        (58, 0..32) => abandon(cast, world, owner),
        (59, 0..16) => {
            cut(world, owner, server);
            Ok(())
        }
        (60, 0..6) => halt(cast, world, owner),
        (61, 0..8) => {
            open(cast, world, server, trouble.0, trouble.1);
            Ok(())
        }
        (62, 0..2) => {
            halt_server(cast, world, server);
            Ok(())
        }
        (62, 2..10) => snapshot(cast, world, server),
        (63, 0..3) => rest(cast, world),
        _ => Ok(()),
    }
}

// From this place on, or else from the front, the first connection of which something is on the way
// to its server, and how many bytes. That its client has given it up is on the way, too.
fn next_up(world: &World, from: usize) -> (usize, usize) {
    let mut first = (from, 0);
    let mut is_found = false;
    let mut at: usize = 0;
    for conn in world.conns.iter() {
        let is_due = conn.is_used && !conn.is_shut && (conn.is_lost || !conn.up.is_empty());
        if is_due && at >= from {
            return (at, conn.up.len());
        }
        if is_due && !is_found {
            first = (at, conn.up.len());
            is_found = true;
        }
        at = at.saturating_add(1);
    }
    first
}

// From this place on, or else from the front, the first connection of which something is on the way
// to its client, and how many bytes. That its server has ended it is on the way, too.
fn next_down(world: &World, from: usize) -> (usize, usize) {
    let mut first = (from, 0);
    let mut is_found = false;
    let mut at: usize = 0;
    for conn in world.conns.iter() {
        let is_due = conn.is_used && !conn.is_lost && (conn.is_shut || !conn.down.is_empty());
        if is_due && at >= from {
            return (at, conn.down.len());
        }
        if is_due && !is_found {
            first = (at, conn.down.len());
            is_found = true;
        }
        at = at.saturating_add(1);
    }
    first
}

// A connection is lost, with a piece of what was under way.
fn cut(world: &mut World, owner: usize, server: usize) {
    let Some(person) = world.persons.get(owner) else {
        return;
    };
    if person.link(server).conn.is_some() {
        world.tally.count(CUTS);
        world.lose(owner, server);
    }
}

// A server stops, if it is up.
fn halt_server<C: Cast>(cast: &mut C, world: &mut World, server: usize) {
    if cast.is_up(server) {
        stop(cast, world, server);
    }
}

/// A server that is down is opened, while this goes wrong with its disks. If it is up then, its
/// space is looked at.
pub fn open<C: Cast>(
    cast: &mut C,
    world: &mut World,
    server: usize,
    left: Trouble,
    right: Trouble,
) {
    if cast.is_up(server) {
        return;
    }
    match cast.open(server, left, right) {
        Opened::Up => look(cast, world, server),
        Opened::Failed => stop(cast, world, server),
        Opened::Broken => world.blame("a server could not be opened"),
    }
}
