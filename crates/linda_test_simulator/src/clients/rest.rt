//! Rests of a run: nobody begins anything, all servers are up, and all that is sent comes. Then
//! each client has what there is for it, and nothing is held.

use crate::clients::cast::Cast;
use crate::clients::deliver::deliver;
use crate::clients::draw::Trouble;
use crate::clients::events::open;
use crate::clients::fetch::{connect, fetch};
use crate::clients::look::look;
use crate::clients::person::{Person, Task};
use crate::clients::things::RESTS;
use crate::clients::wish::{What, count_asks};
use crate::clients::words::Value;
use crate::clients::world::World;
use std::alloc::AllocError;

/// After so many rounds all has come.
const MOST_ROUNDS: u32 = 200;

/// How many tuples are looked at at most.
const MOST_TUPLES: u32 = 1_000_000;

/// All comes to rest, and is looked at.
pub fn rest<C: Cast>(cast: &mut C, world: &mut World) -> Result<(), AllocError> {
    world.tally.count(RESTS);
    for _ in 0..MOST_ROUNDS {
        if is_calm(cast, world) {
            compare(cast, world);
            return Ok(());
        }
        make_round(cast, world)?;
    }
    world.blame("no rest comes");
    Ok(())
}

// Whether all servers are up, all is connected, and nothing is on the way.
fn is_calm<C: Cast>(cast: &C, world: &World) -> bool {
    for server in 0..world.servers {
        if !cast.is_up(server) {
            return false;
        }
    }
    for conn in world.conns.iter() {
        if !conn.is_calm() {
            return false;
        }
    }
    for person in world.persons.iter() {
        if person.is_here() && !is_linked(person) {
            return false;
        }
    }
    true
}

// Whether all servers have welcomed a person.
fn is_linked(person: &Person) -> bool {
    for link in person.links.iter() {
        if !link.is_welcome {
            return false;
        }
    }
    true
}

// Each server is opened, each person connects, and all that is on the way comes.
fn make_round<C: Cast>(cast: &mut C, world: &mut World) -> Result<(), AllocError> {
    for server in 0..world.servers {
        open(cast, world, server, Trouble::none(), Trouble::none());
    }
    for owner in 0..world.persons.len() {
        connect_all(world, owner)?;
    }
    for at in 0..world.conns.len() {
        deliver(cast, world, at, usize::MAX)?;
    }
    for at in 0..world.conns.len() {
        fetch(cast, world, at, usize::MAX)?;
    }
    Ok(())
}

// A person connects to the servers to which it has no connection.
fn connect_all(world: &mut World, owner: usize) -> Result<(), AllocError> {
    for server in 0..world.servers {
        let Some(person) = world.persons.get(owner) else {
            return Ok(());
        };
        if person.is_here() && person.link(server).conn.is_none() {
            connect(world, owner, server)?;
        }
    }
    Ok(())
}

// Compares what servers have with what clients were answered and wait for.
fn compare<C: Cast>(cast: &C, world: &mut World) {
    for server in 0..world.servers {
        look(cast, world, server);
        let counts = cast.count(server);
        if counts.holds != 0 {
            world.blame("a tuple is held at rest");
        }
        if counts.waits != waits_of(world) {
            world.blame("more or fewer asks wait at rest than are open");
        }
        if is_kept_waiting(cast, world, server) {
            world.blame("a client waits though there is a tuple for it");
        }
    }
    if has_unanswered(world) {
        world.blame("a client was not answered");
    }
}

// How many asks wait at each server.
fn waits_of(world: &World) -> usize {
    let mut count: usize = 0;
    for person in world.persons.iter() {
        if person.task == Task::Syncing {
            count = count.saturating_add(count_asks(&person.wish));
        }
    }
    count
}

// Whether a person that is at work has something unanswered that waits for nothing.
fn has_unanswered(world: &World) -> bool {
    for person in world.persons.iter() {
        let is_answered = match person.task {
            Task::Putting | Task::Leaving => false,
            Task::Stopped => true,
            _ => person.claim.is_none() && person.row.is_none() && person.is_ready(),
        };
        if !is_answered {
            return true;
        }
    }
    false
}

// Whether somebody waits for a tuple that is in the space of a server.
fn is_kept_waiting<C: Cast>(cast: &C, world: &World, server: usize) -> bool {
    let mut from: u64 = 0;
    for _ in 0..MOST_TUPLES {
        let Some((id, value)) = cast.next(server, from) else {
            break;
        };
        if let Some(value) = value {
            if is_awaited(world, value) {
                return true;
            }
        }
        from = id.saturating_add(1);
    }
    false
}

// Whether somebody waits for this tuple.
fn is_awaited(world: &World, value: Value) -> bool {
    for person in world.persons.iter() {
        if person.task == Task::Syncing && is_wished(person, value) {
            return true;
        }
    }
    false
}

fn is_wished(person: &Person, value: Value) -> bool {
    for leaf in person.wish.iter() {
        let is_fit = match leaf.what {
            What::Input(form) => form.fits(value),
            What::Read(form) => form.fits(value),
            _ => false,
        };
        if is_fit {
            return true;
        }
    }
    false
}
