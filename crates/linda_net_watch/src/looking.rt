//! Looks at a server, ten times a second, whether a snapshot is to be taken.

ghost use Rattle.std.specs.Prelude.{◌≡◌, ◌*◌, ◌-◌, ◌<◌, ◌≤◌, ◌^◌, min, Some, None};
ghost use Rattle.std.specs.Duration.{as_nanos};

use crate::preallocation::Preallocation;
use crate::watcher::take_snapshot;
use linda_disk::Disk;
use linda_net_marks::Counters;
use linda_shared::Shared;
use std::sync::ledger::Ledger;
use std::sync::{Mutex, Wait};
use std::thread;
use std::time::{Clock, Duration};

/// How many milliseconds pass between two looks: at whether a snapshot pays for itself, or at what
/// happened.
const LOOK: u64 = 100;

/// After a snapshot, this many times its duration passes before the next one is looked for: however
/// full the bank is, messages are served most of the time.
const PAUSES: u64 = 3;

/// Takes a snapshot whenever one is to be taken, and has room written ahead and receipts forgotten,
/// until it is over.
pub fn take_snapshots<D: Disk, L: Ledger, R: Wait + Clock>(
    rt: &R,
    shared: &Shared<D, L>,
    counters: &Counters,
    is_over: &Mutex<bool>,
) {
    let mut pause: u64 = 0;
    let mut ahead = Preallocation::new();
    for _ in rt.forever() {
        if *is_over.lock(rt) {
            return;
        }
        shared.forget(rt);
        pause = match left_of(pause) {
            Some(left) => left,
            None if shared.snapshot_due(rt) => {
                let millis = take_snapshot(rt, shared, counters, is_over);
                ahead.begin_anew(rt, shared);
                pause_after(millis)
            }
            None => 0,
        };
        ahead.look(rt, shared);
        thread::sleep(rt, look());
    }
}

// What is left of a pause of so many milliseconds after a look; `None` if it is over.
fn left_of(pause: u64) -> Option<u64>
    ensures more { 100 ≤ pause → result ≡ Some (pause - 100) }
    ensures over { pause < 100 → result ≡ None }
{
    if pause >= LOOK {
        return Some(pause - LOOK);
    }
    None
}

// For how many milliseconds no snapshot is looked for after one that took so many.
fn pause_after(millis: u64) -> u64
    ensures { result ≡ min (3 * millis) (2 ^ 64 - 1) }
{
    millis.saturating_mul(PAUSES)
}

/// How long it is until the next look: a tenth of a second.
pub(crate) fn look() -> Duration
    ensures { as_nanos result ≡ 100_000_000 }
{
    Duration::from_millis(LOOK)
}
