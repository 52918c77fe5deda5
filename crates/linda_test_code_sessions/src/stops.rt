//! A disk that stops while a snapshot is written: nobody waits for a reply any more.

use super::steps::{Step, Strictly};
use linda_test_server::{Kept, Stand, play};
use std::alloc::AllocError;

/// The first snapshot goes to the right disk, and the second one back to the left, which stops
/// then.
const STOPS: Stand = Stand {
    limit: 1_000,
    stops_in: Some(0),
};

const NEW: Kept = (1, 0, 0);

const STEPS: &[Step] = &[
    ("greet hello 2 7 fresh", "> 7 welcome 0\n", NEW),
    ("greet hello 2 8 fresh", "> 8 welcome 0\n", NEW),
    ("snapshot", "", NEW),
    ("snapshot", "> down\n", NEW),
    ("wait 7", "", NEW),
    ("wait 8", "", NEW),
];

#[test]
fn a_stop_in_a_snapshot_ends_all_outlets(rt: HostRuntime) -> Result<(), AllocError> {
    play(&rt, rt.alloc(), STOPS, &Strictly { steps: STEPS })
}
