//! Tasks of a run: what persons begin, give up, and how they stop and come again.

use crate::clients::cast::Cast;
use crate::clients::draw::{leaf_of, word_of};
use crate::clients::fetch::connect;
use crate::clients::obey::call;
use crate::clients::person::Task;
use crate::clients::things::{AGAIN, HALTS, ORPHANS};
use crate::clients::wish::{event_of, first_ready};
use crate::clients::words::tuple_of;
use crate::clients::world::World;
use linda_client::Call;
use std::alloc::AllocError;

/// How many tuples there are at most before clients put no more.
const MOST_TUPLES: usize = 16;

/// By how much the number of a client that comes in place of another is greater.
const NEXT_NUMBER: u32 = 16;

/// A person does something: it connects, or begins a task, or comes again.
pub fn act<C: Cast>(cast: &mut C, world: &mut World, owner: usize) -> Result<(), AllocError> {
    let Some(person) = world.persons.get(owner) else {
        return Ok(());
    };
    let (task, number, is_ready) = (person.task, person.number, person.is_ready());
    match task {
        Task::Stopped => {
            if world.dice.one_in(4) {
                come(cast, world, owner, number)?;
            }
            return Ok(());
        }
        Task::Left => {
            world.lose_all(owner);
            return come(cast, world, owner, number.wrapping_add(NEXT_NUMBER));
        }
        _ => {}
    }
    let server = world.some(world.servers);
    let is_linked = match world.persons.get(owner) {
        Some(person) => person.link(server).conn.is_some(),
        None => true,
    };
    if !is_linked && cast.is_up(server) {
        return connect(world, owner, server);
    }
    if task == Task::Idle && is_ready {
        return begin(cast, world, owner);
    }
    if world.dice.one_in(8) {
        return abandon(cast, world, owner);
    }
    Ok(())
}

// A client that has done nothing comes, with its number or with another one.
fn come<C: Cast>(
    cast: &mut C,
    world: &mut World,
    owner: usize,
    number: u32,
) -> Result<(), AllocError> {
    let Some(person) = world.persons.get_mut(owner) else {
        return Ok(());
    };
    if number == person.number {
        world.tally.count(AGAIN);
    } else if let Some(claim) = person.claim {
        world.tally.count(ORPHANS);
        world.orphans.push(claim)?;
    }
    person.renew(number);
    match cast.renew(owner, number) {
        Ok(()) => Ok(()),
        Err(_) => Err(AllocError),
    }
}

// A person begins a task.
fn begin<C: Cast>(cast: &mut C, world: &mut World, owner: usize) -> Result<(), AllocError> {
    let mut tuples: usize = 0;
    for server in 0..world.servers {
        tuples = tuples.saturating_add(cast.count(server).tuples);
    }
    if world.dice.one_in(200) {
        set_task(world, owner, Task::Leaving);
        return call(cast, world, owner, Call::Leave);
    }
    if tuples < MOST_TUPLES && world.dice.one_in(2) {
        put(cast, world, owner)
    } else {
        wait(cast, world, owner)
    }
}

fn set_task(world: &mut World, owner: usize, task: Task) {
    let now = world.tally.events;
    if let Some(person) = world.persons.get_mut(owner) {
        person.task = task;
        person.since = now;
    }
}

// A person puts a tuple.
fn put<C: Cast>(cast: &mut C, world: &mut World, owner: usize) -> Result<(), AllocError> {
    set_task(world, owner, Task::Putting);
    let (word, kind) = (word_of(&mut world.dice), word_of(&mut world.dice));
    let server = next_server(world, owner);
    let value = world.rows.add(word, kind, server)?;
    if let Some(person) = world.persons.get_mut(owner) {
        person.row = Some(value.number);
        person.outs = person.outs.saturating_add(1);
    }
    let tuple = tuple_of(world.alloc, value)?;
    call(cast, world, owner, Call::Out(tuple))
}

// The server at which a person puts its next tuple.
fn next_server(world: &World, owner: usize) -> usize {
    let Some(person) = world.persons.get(owner) else {
        return 0;
    };
    let sum = u64::from(person.number).saturating_add(person.outs);
    match sum.checked_rem(world.servers as u64) {
        Some(server) => usize::try_from(server).unwrap_or(0),
        None => 0,
    }
}

// A person waits for some of several things.
fn wait<C: Cast>(cast: &mut C, world: &mut World, owner: usize) -> Result<(), AllocError> {
    set_task(world, owner, Task::Syncing);
    let count = world.dice.below(4).saturating_add(1);
    let World { persons, dice, .. } = world;
    let Some(person) = persons.get_mut(owner) else {
        return Ok(());
    };
    person.wish.clear();
    for place in 0..count {
        let number = u64::from(place).saturating_add(1);
        let leaf = leaf_of(dice, person.clock, number);
        person.wish.push(leaf)?;
    }
    let is_ready = first_ready(&person.wish, person.clock).is_some();
    let event = event_of(world.alloc, &person.wish)?;
    call(cast, world, owner, Call::Sync(event))?;
    if is_ready && is_at(world, owner, Task::Syncing) {
        world.blame("a client waits though its event is ready");
    }
    Ok(())
}

fn is_at(world: &World, owner: usize, task: Task) -> bool {
    match world.persons.get(owner) {
        Some(person) => person.task == task,
        None => false,
    }
}

/// A person that waits gives that up, unless an Accept is unanswered.
pub fn abandon<C: Cast>(cast: &mut C, world: &mut World, owner: usize) -> Result<(), AllocError> {
    let Some(person) = world.persons.get(owner) else {
        return Ok(());
    };
    if person.task != Task::Syncing || person.claim.is_some() {
        return Ok(());
    }
    call(cast, world, owner, Call::Abandon)
}

/// Time goes by for a person.
pub fn tick<C: Cast>(cast: &mut C, world: &mut World, owner: usize) -> Result<(), AllocError> {
    let more = u64::from(world.dice.below(12));
    let Some(person) = world.persons.get_mut(owner) else {
        return Ok(());
    };
    if !person.is_here() {
        return Ok(());
    }
    person.clock = person.clock.saturating_add(more);
    let now = person.clock;
    call(cast, world, owner, Call::Tick(now))
}

/// A person stops. It comes again, or never does: then another one comes in its place.
pub fn halt<C: Cast>(cast: &mut C, world: &mut World, owner: usize) -> Result<(), AllocError> {
    let Some(person) = world.persons.get_mut(owner) else {
        return Ok(());
    };
    if !person.is_here() {
        return Ok(());
    }
    let (number, is_leaving) = (person.number, person.task == Task::Leaving);
    person.task = Task::Stopped;
    world.tally.count(HALTS);
    world.lose_all(owner);
    if is_leaving || world.dice.one_in(3) {
        return come(cast, world, owner, number.wrapping_add(NEXT_NUMBER));
    }
    Ok(())
}
