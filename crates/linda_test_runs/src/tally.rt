//! Tally of a run: how often what happened.

/// The most things of which a tally may say how often they happened.
const MOST_THINGS: usize = 24;

/// How often what happened, of things that are known by their numbers.
#[derive(Clone, Copy, PartialEq, Eq)]
pub struct Tally {
    /// How many events there were.
    pub events: u64,
    /// Of all bytes that were looked at.
    sum: u64,
    counts: [u64; MOST_THINGS],
}

impl Tally {
    /// Nothing happened.
    pub fn new() -> Tally {
        Tally {
            events: 0,
            sum: 0,
            counts: [0; MOST_THINGS],
        }
    }

    /// The thing of this number happened.
    pub fn count(&mut self, thing: usize) {
        self.count_all(thing, 1);
    }

    /// The thing of this number happened so often.
    pub fn count_all(&mut self, thing: usize, times: u64) {
        if let Some(count) = self.counts.get_mut(thing) {
            *count = count.saturating_add(times);
        }
    }

    /// How often the thing of this number happened.
    pub fn of(&self, thing: usize) -> u64 {
        self.counts.get(thing).copied().unwrap_or(0)
    }

    /// These bytes were looked at.
    pub fn add(&mut self, bytes: &[u8]) {
        for byte in bytes {
            self.sum = (self.sum ^ u64::from(*byte)).wrapping_mul(0x0100_0000_01b3);
        }
    }

    /// The sum of all bytes that were looked at.
    pub fn sum(&self) -> u64 {
        self.sum
    }

    /// What happened in another run, too.
    pub fn add_all(&mut self, other: &Tally) {
        for thing in 0..MOST_THINGS {
            self.count_all(thing, other.of(thing));
        }
    }
}
