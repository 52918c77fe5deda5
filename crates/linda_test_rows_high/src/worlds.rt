//! Worlds of servers and clients: what happens, and what comes of it.
//!
//! A row makes its worlds first, each with clients 7, 8 and 9. Then each line happens in all of
//! them: what comes of it is written once if it is the same in each, and else world by world, from
//! 0.
//!
//! | line | what it does |
//! |---|---|
//! | `world 2 in memory` | makes a world over two servers in memory, or over one |
//! | `world 1 on disks` | makes one over durable servers on disks in memory |
//! | `world 1 on disks, 9 times` | makes nine of them |
//! | `world 1 on disks, room 66` | a bank of the first server has room for so many bytes |
//! | `world 1 on disks, left fails at 7` | this call of its left device fails, from 0; or of its
//! right one |
//! | `7 out`, `8 in`, `8 rd` | a client puts `("a", 3)`, takes `("a", ?i)`, or reads that |
//! | `7 sync EVENT`, `7 abandon` | a client waits for an event, and gives up |
//! | `7 leave` | a client leaves |
//! | `7 tick 5` | a client is given the time |
//! | `7 resend`, `7 reconnect 1` | a client sends again what is unanswered, or what server 1 has
//! not answered |
//! | `deliver 3` | packet 3 is delivered, or delivered again |
//! | `close 1 7` | a server ends what waits and what is held for a client |
//! | `snapshot 0` | a server writes a snapshot |
//! | `stop 0 with 2 4` | a server is stopped with these packets in hand, and opened |
//! | `stop 0 with 65 of 0` | a server is stopped with packet 0 in hand so often, and opened |
//! | `stop 0 with 4 at 2 kept` | it is stopped inside this device call, with what becomes of what
//! was not synced |
//! | `stop snapshot 0 at 4 lost` | a server is stopped inside this device call of a snapshot, and
//! opened |
//! | `all 7 out; deliver 0` | these events happen in one call |
//! | `join 6` | a client joins |
//! | `shows` | what servers 0 and 1 did, what 7 and 8 were given, and which packets were never
//! delivered |
//!
//! What was not synced is `kept` or `lost` at a stop, or each byte of it becomes `00`, `01` or
//! `ff`; `each` means all five. A stop that does not say so is inside the first device call, and
//! what was not synced is lost. If as many are said as there are worlds, as `at 2 kept, 3 lost, 4
//! each`, they are for a world each, in their order.

mod call;
mod event;
mod making;
mod stops;
mod told;
mod world;

use call::{Seat, call_of};
use linda_test_script::{WordsFault, split_word};
use making::push_worlds;
use std::alloc::{AllocError, Global};
use world::AnyWorld;

/// The player of rows of worlds.
#[derive(Drop)]
pub struct Worlds {
    worlds: Vec<AnyWorld>,
}

impl Worlds {
    /// No world yet.
    pub fn new(alloc: Global) -> Worlds {
        Worlds {
            worlds: Vec::new(alloc),
        }
    }

    /// Begins a row: no world yet.
    pub fn begin(&mut self, alloc: Global) {
        *self = Worlds::new(alloc);
    }

    /// Plays a line.
    pub fn play(
        &mut self,
        alloc: Global,
        words: &str,
        came: &mut String,
    ) -> Result<(), WordsFault> {
        let (verb, rest) = split_word(words);
        if verb == "world" {
            push_worlds(alloc, rest, &mut self.worlds)
        } else {
            let told = self.told(alloc, words)?;
            Ok(push_told(told.as_slice(), came)?)
        }
    }

    // What comes of the line in each world.
    fn told(&mut self, alloc: Global, words: &str) -> Result<Vec<String>, WordsFault> {
        let mut told = Vec::new(alloc);
        let worlds = self.worlds.len();
        let mut place = 0;
        for world in &mut self.worlds {
            let call = call_of(alloc, words, Seat { place, worlds })?;
            told.push(world.answer(alloc, call)?)?;
            place = place.saturating_add(1);
        }
        Ok(told)
    }
}

// Writes what came: once, if it is the same in each world.
fn push_told(told: &[String], came: &mut String) -> Result<(), AllocError> {
    match told {
        [] => Ok(()),
        [first, rest @ ..] => {
            if are_all(first, rest) {
                return writeln!(came, "> {first}");
            }
            for (place, words) in told.iter().enumerate() {
                writeln!(came, "> world {place}: {words}")?;
            }
            Ok(())
        }
    }
}

fn are_all(first: &String, rest: &[String]) -> bool {
    for words in rest {
        if words.as_str() != first.as_str() {
            return false;
        }
    }
    true
}
