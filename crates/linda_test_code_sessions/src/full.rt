//! A store that is full though it has few records: a take is refused, and works after the snapshot
//! that this asks for.

use super::steps::{Step, Strictly};
use linda_test_server::{Kept, Stand, play};
use std::alloc::AllocError;

/// A new bank has 34 bytes, and the five tuples are a record of 140: a take of 26 more is one byte
/// too long. A snapshot of them and of one client leaves 165 bytes.
const FULL: Stand = Stand {
    limit: 199,
    stops_in: None,
};

const NEW: Kept = (1, 0, 0);

const PUT: Kept = (6, 5, 1);

const TAKEN: Kept = (6, 4, 2);

const STEPS: &[Step] = &[
    ("greet hello 2 7 fresh", "> 7 welcome 0\n", NEW),
    ("greet hello 2 8 fresh", "> 8 welcome 0\n", NEW),
    (
        "all 7 out 1 (\"a\", 3); 7 out 2 (\"a\", 4); 7 out 3 (\"a\", 5); 7 out 4 (\"a\", 6); \
         7 out 5 (\"a\", 7)",
        "> 7 did 1\n> 7 did 2\n> 7 did 3\n> 7 did 4\n> 7 did 5\n\
         > 7 stored 1 1\n> 7 stored 2 2\n> 7 stored 3 3\n> 7 stored 4 4\n> 7 stored 5 5\n",
        PUT,
    ),
    ("8 in 1 (\"a\", ?i)", "> 8 offer 1 1 (\"a\", 3)\n", PUT),
    ("pays", "> pays false\n", PUT),
    ("8 accept 1 1 1", "> 8 refused 6 0\n", PUT),
    ("pays", "> pays true\n", PUT),
    ("snapshot", "", PUT),
    ("pays", "> pays false\n", PUT),
    (
        "8 accept 1 1 1",
        "> 8 did 1\n> 8 taken 1 1 (\"a\", 3)\n",
        TAKEN,
    ),
];

#[test]
fn a_take_that_found_no_room_works_after_a_snapshot(rt: HostRuntime) -> Result<(), AllocError> {
    play(&rt, rt.alloc(), FULL, &Strictly { steps: STEPS })
}
