//! Time that has gone by since a moment, in whole milliseconds and microseconds.

ghost use Rattle.std.specs.Prelude.{◌≡◌, ◌/◌, ◌-◌, ◌^◌, min};
ghost use Rattle.std.specs.Duration.{as_nanos};

use std::time::{Clock, Duration, Instant};

/// How many milliseconds have gone by since then; 0 if the clock cannot be read.
pub fn millis_since<R: Clock>(rt: &R, begin: Option<Instant>) -> u64 {
    match passed_since(rt, begin) {
        Some(passed) => millis_of(passed),
        None => 0,
    }
}

/// How many microseconds have gone by since then; 0 if the clock cannot be read.
pub fn micros_since<R: Clock>(rt: &R, begin: Option<Instant>) -> u64 {
    match passed_since(rt, begin) {
        Some(passed) => micros_of(passed),
        None => 0,
    }
}

// The time that has gone by since then, if the clock can be read.
fn passed_since<R: Clock>(rt: &R, begin: Option<Instant>) -> Option<Duration> {
    begin?.elapsed(rt).ok()
}

/// How many whole milliseconds a time has, as far as that can be counted.
pub(crate) fn millis_of(passed: Duration) -> u64
    ensures { result ≡ min (as_nanos passed / 1_000_000) (2 ^ 64 - 1) }
{
    match u64::try_from(passed.as_millis()) {
        Ok(millis) => millis,
        Err(_) => u64::MAX,
    }
}

// How many whole microseconds a time has, likewise.
fn micros_of(passed: Duration) -> u64
    ensures { result ≡ min (as_nanos passed / 1_000) (2 ^ 64 - 1) }
{
    match u64::try_from(passed.as_micros()) {
        Ok(micros) => micros,
        Err(_) => u64::MAX,
    }
}
