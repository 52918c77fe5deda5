//! Pauses between two pieces of a list, in which others have the server.

ghost use Rattle.std.specs.Prelude.{◌≡◌};
ghost use Rattle.std.specs.Duration.{as_nanos};

use std::thread;
use std::time::{Clock, Duration};

/// For how many milliseconds others have the server between two pieces.
const PAUSE: u64 = 1;

/// Waits until others had the server.
pub(crate) fn let_others<R: Clock>(rt: &R) {
    thread::sleep(rt, pause());
}

// How long it is from one piece to the next.
fn pause() -> Duration
    ensures { as_nanos result ≡ 1_000_000 }
{
    Duration::from_millis(PAUSE)
}
