//! Seconds, for a server that says how long something is so.

use linda_disk::Disk;
use linda_shared::Shared;
use std::sync::Wait;
use std::sync::ledger::Ledger;
use std::time::{Clock, Instant};

/// Says to a server which second it is, counted from 1, if somebody may ask for that.
#[derive(Clone, Copy)]
pub struct Seconds {
    // When the first one began; nothing if nobody asks, or the clock cannot be read.
    begin: Option<Instant>,
    // The last one that was said.
    said: u64,
}

impl Seconds {
    /// The first second begins. It is said at once, if somebody may ask.
    pub fn begin<D: Disk, L: Ledger, R: Wait + Clock>(
        rt: &R,
        shared: &Shared<D, L>,
        is_asked: bool,
    ) -> Seconds {
        let mut seconds = Seconds {
            begin: None,
            said: 0,
        };
        if is_asked {
            seconds.begin = Instant::now(rt).ok();
            seconds.pass(rt, shared);
        }
        seconds
    }

    /// Says which second it is, if it is another one than was said last.
    pub fn pass<D: Disk, L: Ledger, R: Wait + Clock>(&mut self, rt: &R, shared: &Shared<D, L>) {
        let Some(begin) = self.begin else {
            return;
        };
        let Ok(passed) = begin.elapsed(rt) else {
            return;
        };
        let second = passed.as_secs().saturating_add(1);
        if second > self.said {
            shared.set_second(rt, second);
            self.said = second;
        }
    }
}
