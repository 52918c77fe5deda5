//! Obedience to a client: what it sends goes out, and what it was asked for has the outcome that it
//! reports.

use crate::clients::cast::Cast;
use crate::clients::numbers::onward;
use crate::clients::person::{Claim, Person, Task};
use crate::clients::things::{
    ALARMS, COPIED, DROPPED, LEFT, LONELY, SPARED, STORED, TAKEN, VALUES,
};
use crate::clients::wish::{GIVEN, Leaf, What, first_ready, has_labels, has_raised};
use crate::clients::words::{Form, value_of};
use crate::clients::world::World;
use linda_client::{Call, ClientFault, Got, Outcome, Reaction};
use linda_tuple::{Atom, Tuple};
use linda_wire::Message;
use std::alloc::AllocError;

/// A client is called, and what comes of that is done.
pub fn call<C: Cast>(
    cast: &mut C,
    world: &mut World,
    owner: usize,
    call: Call,
) -> Result<(), AllocError> {
    match cast.call(owner, call) {
        Ok(reaction) => {
            let before = kept_by(world);
            obey(world, owner, reaction)?;
            if kept_by(world) != before {
                note_lonely(cast, world);
            }
            Ok(())
        }
        Err(ClientFault::Memory) => Err(AllocError),
        Err(_) => {
            world.blame("a client refused a call");
            Ok(())
        }
    }
}

// How many tuples were stored and taken.
fn kept_by(world: &World) -> u64 {
    world.tally.of(STORED).wrapping_add(world.tally.of(TAKEN))
}

// A tuple was stored or taken, while some server is down or not.
fn note_lonely<C: Cast>(cast: &C, world: &mut World) {
    for server in 0..world.servers {
        if !cast.is_up(server) {
            world.tally.count(LONELY);
            return;
        }
    }
}

/// What a client reacts with is done: it is sent, and what is over is looked at.
pub fn obey(world: &mut World, owner: usize, reaction: Reaction) -> Result<(), AllocError> {
    let Reaction {
        packets,
        outcome,
        fault,
    } = reaction;
    for (server, message) in packets {
        send(world, owner, server as usize, message)?;
    }
    if fault.is_some() {
        world.blame("a server refused a client that keeps to the rules");
    }
    match &outcome {
        Some(outcome) => finish(world, owner, outcome),
        None => Ok(()),
    }
}

// A client sends a message to a server, if that has welcomed it.
fn send(
    world: &mut World,
    owner: usize,
    server: usize,
    message: Message,
) -> Result<(), AllocError> {
    let mut message = message;
    let Some(person) = world.persons.get_mut(owner) else {
        return Ok(());
    };
    let link = person.link(server);
    onward(&mut message, link.base);
    if let Some(n) = note_sent(person, server, &message) {
        if let Some(own) = person.links.get_mut(server) {
            own.sent = own.sent.max(n);
        }
        if let Some(row) = world.rows.find(person.row.unwrap_or(0)) {
            if matches!(message, Message::Out { .. }) {
                row.n = n;
            }
        }
    }
    let (Some(at), true) = (link.conn, link.is_welcome) else {
        return Ok(());
    };
    match world.conns.get_mut(at) {
        Some(conn) => conn.send(&message),
        None => Ok(()),
    }
}

// Notes a message that is sent. Returns its number, if it has one.
fn note_sent(person: &mut Person, server: usize, message: &Message) -> Option<u64> {
    match message {
        Message::Out { n, .. } => Some(*n),
        Message::Leave { n } => Some(*n),
        Message::Accept { n, ticket, id } => {
            person.accepted = Some((u32::try_from(server).unwrap_or(0), *ticket));
            person.claim = Some(Claim {
                server,
                n: *n,
                id: *id,
            });
            Some(*n)
        }
        _ => None,
    }
}

// What a client was asked for is over.
fn finish(world: &mut World, owner: usize, outcome: &Outcome) -> Result<(), AllocError> {
    let Some(person) = world.persons.get_mut(owner) else {
        return Ok(());
    };
    let task = person.task;
    person.task = Task::Idle;
    if let Some((server, ticket)) = person.settle() {
        world.tally.count(SPARED);
        send(world, owner, server as usize, Message::Cancel { ticket })?;
    }
    match outcome {
        Outcome::Stored { server, id } => stored(world, owner, task, *server as usize, *id),
        Outcome::Synced {
            base,
            got,
            labels,
            raised,
        } => {
            synced(world, owner, task, *base, got);
            raise(
                world,
                owner,
                Some(*base),
                labels.as_slice(),
                raised.as_slice(),
            );
        }
        Outcome::Dropped { raised } => {
            world.tally.count(DROPPED);
            raise(world, owner, None, &[], raised.as_slice());
        }
        Outcome::Left => left(world, owner, task),
    }
    Ok(())
}

// A client has left all servers.
fn left(world: &mut World, owner: usize, task: Task) {
    if task != Task::Leaving {
        world.blame("a client has left that was not asked to");
    }
    world.tally.count(LEFT);
    if let Some(person) = world.persons.get_mut(owner) {
        person.task = Task::Left;
    }
}

// A client's tuple is stored at a server.
fn stored(world: &mut World, owner: usize, task: Task, server: usize, id: u64) {
    world.tally.count(STORED);
    let Some(person) = world.persons.get_mut(owner) else {
        return;
    };
    let number = person.row.unwrap_or(0);
    person.row = None;
    let value = match world.rows.find(number) {
        Some(row) => Some(row.value),
        None => None,
    };
    let fault = world.rows.meet(server, id, value).err();
    world.blame_if(fault);
    if task != Task::Putting {
        world.blame("a client has put what it was not asked to");
    }
}

// The labels of what was chosen, and the nack numbers of all else, are those of the wish.
fn raise(world: &mut World, owner: usize, base: Option<usize>, labels: &[u64], raised: &[u64]) {
    let Some(person) = world.persons.get(owner) else {
        return;
    };
    let has_labels = match leaf_at(person, base) {
        Some(leaf) => has_labels(leaf, labels),
        None => labels.is_empty(),
    };
    if !has_labels || !has_raised(&person.wish, base, raised) {
        world.blame("an outcome has other labels or nack numbers than its event");
    }
}

fn leaf_at(person: &Person, base: Option<usize>) -> Option<Leaf> {
    person.wish.get(base?).copied()
}

// A client has what it waited for.
fn synced(world: &mut World, owner: usize, task: Task, base: usize, got: &Got) {
    if task != Task::Syncing {
        world.blame("a client has what it did not wait for");
    }
    let Some(person) = world.persons.get(owner) else {
        return;
    };
    let is_first = first_ready(&person.wish, person.clock) == Some(base);
    let since = person.since;
    let Some(leaf) = leaf_at(person, Some(base)) else {
        world.blame("a client has what is no member of its event");
        return;
    };
    match got {
        Got::Took {
            server,
            id,
            tuple,
            bindings,
        } => took(
            world,
            leaf,
            (*server as usize, *id),
            tuple,
            bindings.as_slice(),
        ),
        Got::Copied {
            server,
            id,
            tuple,
            bindings,
        } => copied(
            world,
            leaf,
            (*server as usize, *id),
            tuple,
            bindings.as_slice(),
            since,
        ),
        Got::Alarm => time_out(world, leaf, is_first),
        Got::Always(atom) => give(world, leaf, is_first, atom),
    }
}

// A client has taken a tuple of this server and id.
fn took(world: &mut World, leaf: Leaf, of: (usize, u64), tuple: &Tuple, bound: &[Atom]) {
    let fault = match leaf.what {
        What::Input(form) => judge(form, tuple, bound),
        _ => Some("a client has taken a tuple that it did not wait for"),
    };
    let now = world.tally.events;
    let taken = world.rows.take(of.0, of.1, value_of(tuple), now);
    world.tally.count(TAKEN);
    world.blame_if(fault.or(taken));
}

// A client that waits since then has a copy of a tuple of this server and id.
fn copied(
    world: &mut World,
    leaf: Leaf,
    of: (usize, u64),
    tuple: &Tuple,
    bound: &[Atom],
    since: u64,
) {
    let fault = match leaf.what {
        What::Read(form) => judge(form, tuple, bound),
        _ => Some("a client has read a tuple that it did not wait for"),
    };
    let copied = world.rows.copy(of.0, of.1, value_of(tuple), since);
    world.tally.count(COPIED);
    world.blame_if(fault.or(copied));
}

// What is wrong with a tuple that a client got for this template.
fn judge(form: Form, tuple: &Tuple, bound: &[Atom]) -> Option<&'static str> {
    let value = value_of(tuple)?;
    if !form.fits(value) {
        return Some("a client has a tuple that its template does not match");
    }
    if !form.binds(value, bound) {
        return Some("a client has other bindings than its template makes");
    }
    None
}

// An alarm was chosen.
fn time_out(world: &mut World, leaf: Leaf, is_first: bool) {
    world.tally.count(ALARMS);
    if !is_first || !matches!(leaf.what, What::Alarm(_)) {
        world.blame("an alarm was chosen that is not the first one that is ready");
    }
}

// A value that is always there was chosen.
fn give(world: &mut World, leaf: Leaf, is_first: bool, atom: &Atom) {
    world.tally.count(VALUES);
    let is_given = match atom {
        Atom::Int(number) => *number == GIVEN,
        _ => false,
    };
    if !is_first || !is_given || leaf.what != What::Always {
        world.blame("a value was chosen that is not the first one, or another one");
    }
}
