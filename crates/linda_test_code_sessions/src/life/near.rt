//! Near end of a connection: the client, and what it compares replies with.

use super::client::Client;
use super::connection::{Event, Far, Stand};
use super::random::Random;
use super::said::Told;
use super::story::Story;
use super::{MEMORY, Wrong};
use std::alloc::Global;

/// How many bytes come at once at most.
const PIECE: u64 = 200;

/// How many bytes go out at once at most.
const SENT: usize = 300;

/// How often more is taken and answered at the end of a connection: enough for all that was said.
const ROUNDS: u32 = 200;

/// The places of what is counted beside the kinds of replies: connections that were lost, and
/// snapshots or steps of one.
const LOST: usize = 8;

const SAVED: usize = 9;

/// At least so many replies of each kind come in a life, and so much happens.
const FLOOR: [u64; 10] = [30, 300, 200, 60, 150, 20, 100, 3, 30, 100];

/// A client, what it said and which replies are due to it, and how often each kind came.
#[derive(Drop)]
pub(super) struct Near {
    random: Random,
    client: Client,
    pub(super) story: Story,
    pub(super) counts: [u64; 10],
    // What is reported to it now.
    told: Vec<Told>,
}

impl Near {
    /// A client that was never here, and a server that keeps nothing.
    pub(super) fn new(alloc: Global, seed: u64) -> Near {
        Near {
            random: Random::new(seed),
            client: Client::new(alloc),
            story: Story::new(alloc),
            counts: [0; 10],
            told: Vec::new(alloc),
        }
    }

    // Counts one more at this place.
    fn count(&mut self, place: usize) {
        if place < 10 {
            self.counts[place] = self.counts[place].saturating_add(1);
        }
    }

    /// Whether there is enough of everything.
    pub(super) fn has_enough(&self) -> bool {
        for place in 0..10 {
            if self.counts[place] < FLOOR[place] {
                return false;
            }
        }
        true
    }

    /// One event, by weights of 200 in all.
    pub(super) fn event<F: Far>(&mut self, far: &mut F) -> Result<(), Wrong> {
        let event = match self.random.below(200) {
            0..=51 => return self.say(far),
            52..=91 => Event::Bring(self.random.below(PIECE + 1) as usize),
            92..=131 => Event::Take,
            132..=161 => Event::Fetch(self.random.below(SENT as u64 + 1) as usize),
            162..=169 => Event::ServeAsks,
            170..=194 => Event::Serve,
            195..=198 => {
                self.count(SAVED);
                Event::Save(self.random.below(8))
            }
            _ => return self.come_again(far),
        };
        self.go(far, event)?;
        Ok(())
    }

    // This happens. What the client hears by it has to be what is due.
    fn go<F: Far>(&mut self, far: &mut F, event: Event) -> Result<Stand, Wrong> {
        let stand = far.happens(event, &mut self.told)?;
        for place in 0..self.told.len() {
            let Some(told) = self.told.get(place).copied() else {
                break;
            };
            self.story.hear(told)?;
            self.count(told.kind);
            if self.client.hear(told).is_err() {
                return Err(MEMORY);
            }
        }
        self.told.clear();
        Ok(stand)
    }

    // The client says something more, unless it waits.
    fn say<F: Far>(&mut self, far: &mut F) -> Result<(), Wrong> {
        let Some(said) = self.client.choose(&mut self.random) else {
            return Ok(());
        };
        self.go(far, Event::Say(self.client.number, said))?;
        match self.story.said.push_back(said) {
            Ok(()) => Ok(()),
            Err(_) => Err(MEMORY),
        }
    }

    // The connection is lost, and the client comes again. One that left for good comes again too,
    // or another one in its place.
    fn come_again<F: Far>(&mut self, far: &mut F) -> Result<(), Wrong> {
        let is_whole = self.random.below(3) == 0;
        self.hang_up(far, is_whole)?;
        self.count(LOST);
        let is_other = self.story.model.has_left() && self.random.below(2) == 0;
        self.story.come_again(is_other);
        self.client.come_again(is_other);
        Ok(())
    }

    // No more bytes come: what came is taken to its end, and all that is due goes out. Or the
    // connection fails: what the server took of it is answered, to nobody.
    fn hang_up<F: Far>(&mut self, far: &mut F, is_whole: bool) -> Result<(), Wrong> {
        let mut stand = self.go(far, if is_whole { Event::Shut } else { Event::Fail })?;
        for _ in 0..ROUNDS {
            if stand.is_over {
                break;
            }
            self.go(far, Event::Take)?;
            self.go(far, Event::Serve)?;
            stand = self.go(far, Event::Fetch(SENT))?;
        }
        let last = self.story.catch_up(stand.taken)?;
        if is_whole && !self.story.model.told.is_empty() {
            return Err("a reply was due, and did not come");
        }
        self.go(far, Event::Depart(last))?;
        Ok(())
    }

    /// All that was said comes, and then the client hangs up.
    pub(super) fn end<F: Far>(&mut self, far: &mut F) -> Result<(), Wrong> {
        for _ in 0..ROUNDS {
            self.go(far, Event::Bring(PIECE as usize))?;
            self.go(far, Event::Take)?;
            self.go(far, Event::Serve)?;
            self.go(far, Event::Fetch(SENT))?;
        }
        self.hang_up(far, true)?;
        if self.story.said.is_empty() {
            Ok(())
        } else {
            Err("a message is left that the server did not take")
        }
    }
}
