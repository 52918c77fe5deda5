//! Notices about a server while its connections are served, and the thread that gives them.

ghost use Rattle.std.specs.Prelude.{◌≡◌, ◌↔◌, ◌+◌, ◌<◌, ◌≤◌, IsTrue};
ghost use Rattle.linda_net_watch.specs.Alerts.{notice_of_snapshot};

use crate::alert_state::AlertState;
use crate::looking::look;
use crate::seconds::Seconds;
use crate::snapshots::snapshot;
use linda_disk::Disk;
use linda_net_marks::{CounterValues, Counters, Notice, millis_since};
use linda_shared::{Gauge, Shared, SharedFault};
use std::sync::ledger::Ledger;
use std::sync::{Mutex, Wait};
use std::thread;
use std::time::{Clock, Instant};

/// How long a minute is, in milliseconds.
const MINUTE: u64 = 60_000;

/// After how many looks it is asked whether what the server writes is kept: a second.
const LOOKS: u32 = 10;

/// How many troubles there are that are reported when they begin.
const TROUBLES: u32 = 8;

/// Gets the notices of what happens while connections are served.
pub trait Watcher {
    /// This happened, with the numbers of the server and of its connections at that moment.
    fn tell<C: Clock>(&mut self, clock: &C, notice: Notice, gauge: &Gauge, tally: &CounterValues);

    /// Whether what the server writes is kept, as far as the watcher knows: asked once a second. If
    /// it is not, the server goes down.
    fn is_kept<C: Clock>(&mut self, _clock: &C) -> bool {
        true
    }
}

/// Looks ten times a second until it is over, and then once more, reports what happened, and says
/// to the server which second it is. Only this thread waits if the watcher does not go on.
pub fn watch<D: Disk, L: Ledger, R: Wait + Clock, T: Watcher>(
    rt: &R,
    shared: &Shared<D, L>,
    is_over: &Mutex<bool>,
    counters: &Counters,
    watcher: &Mutex<T>,
    seconds: Seconds,
) {
    let mut seconds = seconds;
    let mut seen = AlertState::new();
    let mut begin = Instant::now(rt).ok();
    let mut looks: u32 = 0;
    for _ in rt.forever() {
        let over = *is_over.lock(rt);
        seconds.pass(rt, shared);
        if let Some(notice) = counters.take_snapshot(rt) {
            tell(rt, shared, counters, watcher, notice);
        }
        let tally = counters.tally();
        tell_troubles(rt, shared, counters, watcher, &mut seen, &tally);
        if over {
            return;
        }
        if is_minute(millis_since(rt, begin)) {
            tell(rt, shared, counters, watcher, Notice::Minute);
            seen.end_minute(&tally);
            begin = Instant::now(rt).ok();
        }
        looks = looks_after(looks);
        if looks == 0 {
            end_if_not_kept(rt, shared, watcher);
        }
        thread::sleep(rt, look());
    }
}

/// Takes a snapshot, and notes what came of it, unless the server is down or it is over. Returns
/// how many milliseconds it took.
pub(crate) fn take_snapshot<D: Disk, L: Ledger, R: Wait + Clock>(
    rt: &R,
    shared: &Shared<D, L>,
    counters: &Counters,
    is_over: &Mutex<bool>,
) -> u64 {
    let begin = Instant::now(rt).ok();
    let taken = snapshot(rt, shared, is_over);
    let millis = millis_since(rt, begin);
    if let Some(taken) = taken {
        if let Some(notice) = notice_of(&taken, millis) {
            counters.keep_snapshot(rt, notice);
        }
    }
    millis
}

// What is reported of a snapshot that took so many milliseconds.
fn notice_of(taken: &Result<(), SharedFault>, millis: u64) -> Option<Notice>
    ensures { result ≡ notice_of_snapshot taken.now millis }
{
    match taken {
        Ok(()) => Some(Notice::Snapshot(millis)),
        Err(SharedFault::Full) => Some(Notice::NoSnapshot(millis)),
        Err(SharedFault::Down) => None,
        Err(SharedFault::SeatMissing) => None,
        Err(SharedFault::Receipt { .. }) => None,
        Err(SharedFault::Stuck(_)) => None,
        Err(SharedFault::NoThread) => None,
        Err(SharedFault::Memory) => None,
    }
}

// Reports each trouble that began.
fn tell_troubles<D: Disk, L: Ledger, R: Wait + Clock, T: Watcher>(
    rt: &R,
    shared: &Shared<D, L>,
    counters: &Counters,
    watcher: &Mutex<T>,
    seen: &mut AlertState,
    tally: &CounterValues,
) {
    let is_down = shared.is_down(rt);
    for _ in 0..TROUBLES {
        let Some(notice) = seen.next(tally, is_down) else {
            return;
        };
        tell(rt, shared, counters, watcher, notice);
    }
}

/// Reports a notice, with the numbers of the server and of its connections.
pub fn tell<D: Disk, L: Ledger, R: Wait + Clock, T: Watcher>(
    rt: &R,
    shared: &Shared<D, L>,
    counters: &Counters,
    watcher: &Mutex<T>,
    notice: Notice,
) {
    let gauge = shared.gauge(rt);
    let tally = counters.tally();
    watcher.lock(rt).tell(rt, notice, &gauge, &tally);
}

// The server goes down if what it writes is not kept.
fn end_if_not_kept<D: Disk, L: Ledger, R: Wait + Clock, T: Watcher>(
    rt: &R,
    shared: &Shared<D, L>,
    watcher: &Mutex<T>,
) {
    let is_kept = watcher.lock(rt).is_kept(rt);
    if !is_kept {
        shared.give_up(rt);
    }
}

// How many looks there were in this second after one more; none if it is over.
fn looks_after(looks: u32) -> u32
    ensures more { looks + 1 < 10 → result ≡ looks + 1 }
    ensures over { 10 ≤ looks + 1 → result ≡ 0 }
{
    if looks < LOOKS - 1 {
        return looks + 1;
    }
    0
}

// Whether a minute is over after so many milliseconds.
fn is_minute(millis: u64) -> bool
    ensures { IsTrue result ↔ (60_000 ≤ millis) }
{
    millis >= MINUTE
}
