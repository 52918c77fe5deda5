//! Runs of a server, as they are played and printed.

use crate::servers::lives::play;
use crate::servers::things::{REFUSALS, THINGS};
use crate::servers::world::World;
use linda_test_runs::{Course, Player, Tally};
use std::alloc::{AllocError, Global};
use std::io;
use std::net::Net;
use std::sync::Wait;

/// What plays runs of a server.
#[derive(Drop)]
pub struct Servers<'a, R: Wait + Net> {
    rt: &'a R,
    last: Option<World>,
}

impl<'a, R: Wait + Net> Servers<'a, R> {
    /// No run was played.
    pub fn new(rt: &'a R) -> Servers<'a, R> {
        Servers { rt, last: None }
    }
}

impl<R: Wait + Net> Player for Servers<'_, R> {
    fn play(
        &mut self,
        alloc: Global,
        course: &Course,
    ) -> Result<(Tally, Option<&'static str>), AllocError> {
        let world = play(self.rt, alloc, course)?;
        let told = (world.tally, world.fault);
        self.last = Some(world);
        Ok(told)
    }

    fn print_last<P: Print>(&self, rt: &P) -> io::Result<()> {
        match &self.last {
            Some(world) => print_connections(rt, world),
            None => Ok(()),
        }
    }

    fn things(&self) -> &'static [&'static str] {
        &THINGS
    }

    fn wanted(&self) -> usize {
        REFUSALS
    }

    fn kind(&self) -> &'static str {
        ""
    }
}

// Prints what is under way over the connections.
fn print_connections<R: Print>(rt: &R, world: &World) -> io::Result<()> {
    let mut at: usize = 0;
    for conn in world.conns.iter() {
        if conn.is_used {
            println!(rt;
                "  client {}: {} bytes to come, {} messages to be taken, {} bytes due, {} written",
                conn.owner,
                conn.wire.len(),
                conn.sent.len(),
                conn.due.len(),
                world.written(at)
            )?;
            println!(rt;
                "    lost {}, read {}, closed {}, failed {}, greeted {}, at {} looks",
                conn.is_lost,
                conn.is_read,
                conn.is_closed,
                conn.is_failed,
                conn.greeted.is_some(),
                conn.looks
            )?;
        }
        at = at.saturating_add(1);
    }
    Ok(())
}
