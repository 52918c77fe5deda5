//! Run: a cast and a world of a seed, and all its events.

use crate::clients::cast::Cast;
use crate::clients::events::happen;
use crate::clients::things::THINGS;
use crate::clients::troupe::Troupe;
use crate::clients::world::World;
use linda_test_runs::{Course, Player, Tally};
use std::alloc::{AllocError, Global};
use std::io;

// Plays a run.
fn play(alloc: Global, course: &Course) -> Result<World, AllocError> {
    let (persons, servers) = (persons_of(course.seed), servers_of(course.seed));
    let mut world = World::new(alloc, course.seed, persons, servers as usize)?;
    let mut troupe = Troupe::new(alloc, servers, persons)?;
    work(&mut troupe, &mut world, course)?;
    Ok(world)
}

// How many clients a run has: 2 to 8.
fn persons_of(seed: u64) -> u32 {
    match seed % 4 {
        0 => 2,
        1 => 4,
        2 => 8,
        _ => 3,
    }
}

// How many servers a run has: mostly two.
fn servers_of(seed: u64) -> u32 {
    match seed % 9 {
        0 => 1,
        1 | 2 => 3,
        _ => 2,
    }
}

// All that happens.
fn work<C: Cast>(cast: &mut C, world: &mut World, course: &Course) -> Result<(), AllocError> {
    for at in 0..course.len() {
        world.dice = course.dice(at);
        happen(cast, world)?;
        if world.fault.is_some() {
            break;
        }
    }
    Ok(())
}

/// What plays runs of clients.
#[derive(Drop)]
pub struct Clients {
    /// How many clients and servers the last run had.
    last: (usize, usize),
}

impl Clients {
    /// No run was played.
    pub fn new() -> Clients {
        Clients { last: (0, 0) }
    }
}

impl Player for Clients {
    fn play(
        &mut self,
        alloc: Global,
        course: &Course,
    ) -> Result<(Tally, Option<&'static str>), AllocError> {
        let world = play(alloc, course)?;
        self.last = (world.persons.len(), world.servers);
        Ok((world.tally, world.fault))
    }

    fn print_last<R: Print>(&self, rt: &R) -> io::Result<()> {
        let (persons, servers) = self.last;
        println!(rt; "  {} persons, {} servers", persons, servers)
    }

    fn things(&self) -> &'static [&'static str] {
        &THINGS
    }

    fn wanted(&self) -> usize {
        THINGS.len()
    }

    fn kind(&self) -> &'static str {
        "clients "
    }
}
