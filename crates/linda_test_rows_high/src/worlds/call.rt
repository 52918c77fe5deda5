//! Calls that a line makes of a world.

use super::event::event_of;
use linda_test_script::{WordsFault, read_small_number, split_word};
use linda_world::WorldEvent;
use std::alloc::Global;

/// What is asked of a world.
#[derive(Drop)]
pub enum Call {
    /// An event.
    Step(WorldEvent),
    /// Events in one call.
    Run(Vec<WorldEvent>),
    /// A client of this number joins.
    Join(u32),
    /// It shows what was done.
    Show,
}

/// The place of a world among those of its row, from 0, and how many these are.
#[derive(Clone, Copy)]
pub struct Seat {
    pub place: usize,
    pub worlds: usize,
}

/// What the words ask of the world that has this place.
pub fn call_of(alloc: Global, words: &str, seat: Seat) -> Result<Call, WordsFault> {
    let (verb, rest) = split_word(words);
    match verb {
        "shows" if rest.is_empty() => Ok(Call::Show),
        "join" => Ok(Call::Join(read_small_number(rest)?)),
        "all" => all_of(alloc, rest, seat),
        _ => Ok(Call::Step(event_of(alloc, words, seat)?)),
    }
}

// All events of one call.
fn all_of(alloc: Global, words: &str, seat: Seat) -> Result<Call, WordsFault> {
    let mut events = Vec::new(alloc);
    for words in words.split(';') {
        events.push(event_of(alloc, words.trim(), seat)?)?;
    }
    Ok(Call::Run(events))
}
