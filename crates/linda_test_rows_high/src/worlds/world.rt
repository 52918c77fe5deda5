//! A world over servers of either kind, and what comes of a call in it.

use super::call::Call;
use super::told::{push_end, push_packets, push_seen};
use linda_disk::MemDisk;
use linda_server::Durable;
use linda_store::{Node, Volatile};
use linda_test_script::WordsFault;
use linda_world::{World, WorldEvent, WorldFault};
use std::alloc::Global;

/// A world over servers in memory, or over servers on disks.
#[derive(Drop)]
pub enum AnyWorld {
    InMemory(World<Volatile>),
    OnDisks(World<Durable<MemDisk>>),
}

impl AnyWorld {
    /// What comes of the call, in words.
    pub fn answer(&mut self, alloc: Global, call: Call) -> Result<String, WordsFault> {
        match self {
            AnyWorld::InMemory(world) => answered(alloc, world, call),
            AnyWorld::OnDisks(world) => answered(alloc, world, call),
        }
    }
}

fn answered<N: Node>(
    alloc: Global,
    world: &mut World<N>,
    call: Call,
) -> Result<String, WordsFault> {
    match call {
        Call::Step(event) => stepped(alloc, world, event),
        Call::Run(events) => ended(alloc, world.run(alloc, events), "done"),
        Call::Join(client) => ended(alloc, world.add_client(alloc, client), "joined"),
        Call::Show => {
            let mut words = String::new(alloc);
            push_end(&mut words, world)?;
            Ok(words)
        }
    }
}

// What is said of the event, and the packets that are new.
fn stepped<N: Node>(
    alloc: Global,
    world: &mut World<N>,
    event: WorldEvent,
) -> Result<String, WordsFault> {
    let before = world.packets().len();
    let mut words = match world.step(alloc, event) {
        Ok(seen) => {
            let mut words = String::new(alloc);
            push_seen(&mut words, &seen)?;
            words
        }
        Err(fault) => refusal(alloc, fault)?,
    };
    push_packets(&mut words, world.packets(), before)?;
    Ok(words)
}

fn ended(alloc: Global, end: Result<(), WorldFault>, well: &str) -> Result<String, WordsFault> {
    match end {
        Ok(()) => Ok(String::from_str(alloc, well)?),
        Err(fault) => refusal(alloc, fault),
    }
}

// Why nothing happened, or not all.
fn refusal(alloc: Global, fault: WorldFault) -> Result<String, WordsFault> {
    match fault {
        WorldFault::Memory => Err(WordsFault::Memory),
        fault => Ok(format!(in alloc; "{fault}")?),
    }
}
