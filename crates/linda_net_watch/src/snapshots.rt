//! A snapshot while connections are served: in steps, between which they go on.

ghost use Rattle.std.specs.Prelude.{◌≡◌, ◌*◌, ◌-◌, ◌^◌, min, max};
ghost use Rattle.std.specs.Duration.{as_nanos};

use linda_disk::Disk;
use linda_shared::{Progress, Shared, SharedFault};
use std::sync::ledger::Ledger;
use std::sync::{Mutex, Wait};
use std::thread;
use std::time::{Clock, Duration};

/// About so many bytes are written in a step, or more if more records came since the last one. A
/// bank of fewer bytes has a snapshot of hardly more, which is taken at once.
const STEP: usize = 262_144;

/// So many clients are copied at a time, before a snapshot in steps begins.
const PIECE: u32 = 1_024;

/// For how many milliseconds others have the server between two steps, and between two pieces.
const PAUSE: u64 = 1;

/// Takes a snapshot: in steps, or at once if the bank is short, or if one in steps was given up.
/// Returns what came of it; nothing if it was over before it came to its end.
pub(crate) fn snapshot<D: Disk, L: Ledger, R: Wait + Clock>(
    rt: &R,
    shared: &Shared<D, L>,
    is_over: &Mutex<bool>,
) -> Option<Result<(), SharedFault>> {
    if shared.gauge(rt).used < STEP {
        return Some(shared.snapshot(rt));
    }
    if !copy_clients(rt, shared, is_over) {
        shared.forget_copy(rt);
        return None;
    }
    if let Err(fault) = shared.begin_snapshot(rt) {
        shared.forget_copy(rt);
        return Some(Err(fault));
    }
    let (mut used, mut most) = (shared.gauge(rt).used, STEP);
    for _ in rt.forever() {
        if *is_over.lock(rt) {
            return None;
        }
        match shared.continue_snapshot(rt, most) {
            Err(fault) => return Some(Err(fault)),
            Ok(Progress::Done) => return Some(Ok(())),
            Ok(Progress::Idle) => return Some(shared.snapshot(rt)),
            Ok(Progress::Going) => thread::sleep(rt, pause()),
        }
        let now = shared.gauge(rt).used;
        most = next_step_bytes(used, now);
        used = now;
    }
    None
}

// Copies the clients, so many at a time, while others have the server between two pieces. Returns
// false if it was over before all were copied.
fn copy_clients<D: Disk, L: Ledger, R: Wait + Clock>(
    rt: &R,
    shared: &Shared<D, L>,
    is_over: &Mutex<bool>,
) -> bool {
    for _ in rt.forever() {
        if *is_over.lock(rt) {
            return false;
        }
        if shared.copy_clients(rt, PIECE) {
            return true;
        }
        thread::sleep(rt, pause());
    }
    false
}

// About how many bytes the next step writes, if the bank in use had so many bytes before the last
// one and has so many now: twice as many as it has more. So with each step less is left to write,
// however fast records come.
fn next_step_bytes(before: usize, now: usize) -> usize
    ensures { result ≡ max 262_144 (min (2 * (now - before)) (2 ^ 64 - 1)) }
{
    now.saturating_sub(before).saturating_mul(2).max(STEP)
}

// How long it is from one step to the next.
fn pause() -> Duration
    ensures { as_nanos result ≡ 1_000_000 }
{
    Duration::from_millis(PAUSE)
}
