//! The time of a loop, by which it measures for how long something is so. It is never ahead of the
//! clock.

ghost use Rattle.std.specs.Prelude.{◌≡◌};
ghost use Rattle.std.specs.Duration.{as_nanos};
ghost use Rattle.linda_net_relays.specs.Spans.{counted, is_due, millis_left};

use crate::span::Look;
use std::time::{Clock, Duration, Instant};

/// A second, in nanoseconds.
const SECOND: u64 = 1_000_000_000;

/// A millisecond, in nanoseconds.
const MILLI: u64 = 1_000_000;

/// For how many nanoseconds a loop ran. Of what goes by between two looks at the clock a second
/// counts at most: so a loop that was stopped reads what came meanwhile before anybody is late.
#[derive(Drop)]
pub struct Time {
    // When the clock was read last.
    last: Option<Instant>,
    // The time now, at the beginning of the turn, and when connections were last looked at.
    now: u64,
    began: u64,
    looked: u64,
}

impl Time {
    /// The loop did not run yet.
    pub fn new() -> Time {
        Time {
            last: None,
            now: 0,
            began: 0,
            looked: 0,
        }
    }

    /// A turn begins: what came before this moment is read in it. If the clock fails no time went
    /// by.
    pub fn begin_turn<R: Clock>(&mut self, rt: &R) {
        self.pass(rt);
        self.began = self.now;
    }

    /// How many milliseconds there are until connections are looked at again.
    pub fn left(&self) -> u64 {
        millis_left(self.looked, self.began)
    }

    /// By what connections are looked at, if that is due: once a second.
    pub fn look<R: Clock>(&mut self, rt: &R) -> Option<Look> {
        if !is_due(self.looked, self.began) {
            return None;
        }
        self.looked = self.began;
        self.pass(rt);
        Some(Look {
            began: self.began,
            now: self.now,
        })
    }

    // Counts what went by since the clock was read last.
    fn pass<R: Clock>(&mut self, rt: &R) {
        let Ok(now) = Instant::now(rt) else {
            return;
        };
        if let Some(last) = self.last {
            let gone = counted(now.duration_since(last));
            self.now = self.now.saturating_add(gone);
        }
        self.last = Some(now);
    }
}

// How many nanoseconds count of what went by.
fn counted(gone: Duration) -> u64
    ensures { result ≡ counted (as_nanos gone) }
{
    match u64::try_from(gone.as_nanos()) {
        Ok(nanos) => nanos.min(SECOND),
        Err(_) => SECOND,
    }
}

// Whether connections are to be looked at again now.
fn is_due(looked: u64, now: u64) -> bool
    ensures { result ≡ is_due looked now }
{
    now.saturating_sub(looked) >= SECOND
}

// How many milliseconds there are until connections are to be looked at again.
fn millis_left(looked: u64, now: u64) -> u64
    ensures { result ≡ millis_left looked now }
{
    let left = SECOND.saturating_sub(now.saturating_sub(looked));
    left.div_ceil(MILLI)
}
