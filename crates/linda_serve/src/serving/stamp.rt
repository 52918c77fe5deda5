//! Stamps of time, which begin the lines of the log.

use httpdate::HttpDate;
use std::time::{Clock, SystemTime, UNIX_EPOCH};

/// How long a time is, as in `2026-11-24T22:05:09Z`.
pub const STAMP: usize = 20;

/// The time now, in UTC. Nothing if the clock cannot be read.
pub(crate) fn stamp_now<C: Clock>(clock: &C) -> Option<[u8; STAMP]> {
    let now = SystemTime::now(clock).ok()?;
    let since = now.duration_since(UNIX_EPOCH).ok()?;
    stamp_of(since.as_secs())
}

/// The time so many seconds after 1970 began, until 9999 ends: that of a date of HTTP, its parts in
/// another order.
pub fn stamp_of(seconds: u64) -> Option<[u8; STAMP]> {
    let date = HttpDate::from_unix_secs(seconds).ok()?;
    let at = date.to_bytes();
    let month = month_of([at[8], at[9], at[10]]);
    Some([
        at[12], at[13], at[14], at[15], b'-', month[0], month[1], b'-', at[5], at[6], b'T', at[17],
        at[18], at[19], at[20], at[21], at[22], at[23], at[24], b'Z',
    ])
}

// The two digits of a month by its letters.
fn month_of(letters: [u8; 3]) -> [u8; 2] {
    match letters {
        [b'J', b'a', b'n'] => *b"01",
        [b'F', b'e', b'b'] => *b"02",
        [b'M', b'a', b'r'] => *b"03",
        [b'A', b'p', b'r'] => *b"04",
        [b'M', b'a', b'y'] => *b"05",
        [b'J', b'u', b'n'] => *b"06",
        [b'J', b'u', b'l'] => *b"07",
        [b'A', b'u', b'g'] => *b"08",
        [b'S', b'e', b'p'] => *b"09",
        [b'O', b'c', b't'] => *b"10",
        [b'N', b'o', b'v'] => *b"11",
        _ => *b"12",
    }
}
