//! The clock of a call.

ghost use Rattle.std.specs.Prelude.{◌≡◌, ◌≤◌, ◌<◌, ◌+◌, IfSome};
ghost use Rattle.std.specs.Duration.{as_nanos};
ghost use Rattle.linda_call.specs.Clock as spec;

use std::time::Duration;

/// How long a server may take to answer its first Hello, in ticks.
const PATIENCE: u64 = 10_000;

/// The longest pause while nothing comes, in ticks.
pub(super) const LONGEST_PAUSE: u64 = 1_000;

/// The ticks in a time: one is a millisecond.
pub(super) fn ticks_in(gone: Duration) -> u64
    ensures { result ≡ spec.ticks_in (as_nanos gone) }
{
    match u64::try_from(gone.as_millis()) {
        Ok(ticks) => ticks,
        Err(_) => u64::MAX,
    }
}

/// Whether a server has had its time to answer its first Hello, so many ticks after the call began.
pub(super) fn is_late(ticks: u64) -> bool
    ensures { result ≡ spec.is_late ticks }
{
    ticks >= PATIENCE
}

/// How long a client that knows the time `now` may wait for what comes: until that time, if it is
/// still to come, and a second at most.
pub(super) fn pause_until(now: u64, time: Option<u64>) -> u64
    ensures some { 1 ≤ result }
    ensures few { result ≤ 1000 }
    ensures in_time { IfSome time (λ t. now < t → now + result ≤ t) }
{
    match time {
        Some(time) if now < time => (time - now).min(LONGEST_PAUSE),
        _ => LONGEST_PAUSE,
    }
}

/// How long a client that waits for its first welcomes may wait for what comes.
pub(super) fn pause_for_welcome(now: u64) -> u64
    ensures some { 1 ≤ result }
{
    pause_until(now, Some(PATIENCE))
}
