//! Sessions that leave with an offer, come again, and greet if they are known, or whose client
//! leaves for good: what is reported to them, and to all at the end.

use super::steps::{AsFarAsMemoryGoes, Step, Strictly};
use linda_test_server::{Kept, ROOMY, play};
use std::alloc::AllocError;

const NEW: Kept = (1, 0, 0);

const PUT: Kept = (2, 1, 1);

const TAKEN: Kept = (2, 0, 2);

const LEFT: Kept = (2, 1, 2);

/// 7 is offered its tuple twice and its session leaves with the second offer; 8, which waits, is
/// offered it then, and takes it. 7 comes again, and its Accept finds the tuple gone. The deeds are
/// the put, that Accept and the take.
const COMES_AGAIN: &[Step] = &[
    ("greet hello 2 7 fresh", "> 7 welcome 0\n", NEW),
    ("mailboxes", "> mailboxes 1\n", NEW),
    ("7 out 1 (\"a\", 3)", "> 7 did 1\n> 7 stored 1 1\n", PUT),
    ("7 in 1 (\"a\", ?i)", "> 7 offer 1 1 (\"a\", 3)\n", PUT),
    ("7 cancel 1", "", PUT),
    ("7 in 2 (\"a\", ?i)", "> 7 offer 2 1 (\"a\", 3)\n", PUT),
    ("greet hello 2 8 fresh", "> 8 welcome 0\n", PUT),
    ("8 in 1 (\"a\", ?i)", "", PUT),
    ("leave 7", "> 8 offer 1 1 (\"a\", 3)\n", PUT),
    ("mailboxes", "> mailboxes 1\n", PUT),
    ("greet hello 2 7 fresh", "> refused 2 1\n", PUT),
    ("mailboxes", "> mailboxes 1\n", PUT),
    ("greet hello 2 7 known", "> 7 welcome 1\n", PUT),
    ("7 accept 2 1 1", "> 7 did 2\n> 7 gone 2\n", PUT),
    (
        "8 accept 1 1 1",
        "> 8 did 1\n> 8 taken 1 1 (\"a\", 3)\n",
        TAKEN,
    ),
    ("greet hello 2 8 known", "> refused 3 0\n", TAKEN),
    ("mailboxes", "> mailboxes 2\n", TAKEN),
    ("8 hello 2 8 known", "> 8 refused 3 0\n", TAKEN),
    ("finish 7", "> a seat is missing\n", TAKEN),
    ("finish 8", "> 3 deeds, 1 ids\n", TAKEN),
    ("greet hello 2 7 known", "> refused 3 0\n", TAKEN),
];

/// 9 is offered the tuple of 8 and gives its number up for good: 8, which waits, is offered it
/// then, and what 9 says is refused from then on, in its next session too. The Leave is a deed
/// beside the put.
const LEAVES: &[Step] = &[
    ("greet hello 1 8 fresh", "> refused 1 2\n", NEW),
    ("greet hello 2 8 fresh", "> 8 welcome 0\n", NEW),
    ("8 out 1 (\"a\", 4)", "> 8 did 1\n> 8 stored 1 1\n", PUT),
    ("greet hello 2 9 fresh", "> 9 welcome 0\n", PUT),
    ("9 in 1 (\"a\", ?i)", "> 9 offer 1 1 (\"a\", 4)\n", PUT),
    ("8 in 1 (\"a\", ?i)", "", PUT),
    (
        "9 leave 1",
        "> 9 did 1\n> 8 offer 1 1 (\"a\", 4)\n> 9 left 1\n",
        LEFT,
    ),
    ("9 leave 1", "> 9 left 1\n", LEFT),
    (
        "all 9 accept 2 1 1; 9 in 2 (\"a\", ?i)",
        "> 9 refused 11 1\n> 9 refused 11 1\n",
        LEFT,
    ),
    ("leave 9", "", LEFT),
    ("greet hello 2 9 known", "> 9 welcome 1\n", LEFT),
    ("9 out 2 (\"a\", 5)", "> 9 refused 11 1\n", LEFT),
    ("finish 8", "> a seat is missing\n", LEFT),
    ("finish 9", "> 2 deeds, 1 ids\n", LEFT),
    ("greet hello 2 8 known", "> refused 3 0\n", LEFT),
];

#[test]
fn a_waiting_session_is_offered_what_another_leaves(rt: HostRuntime) -> Result<(), AllocError> {
    play(&rt, rt.alloc(), ROOMY, &Strictly { steps: COMES_AGAIN })
}

#[test]
fn a_waiting_session_is_offered_what_a_client_leaves_for_good(
    rt: HostRuntime,
) -> Result<(), AllocError> {
    play(&rt, rt.alloc(), ROOMY, &Strictly { steps: LEAVES })
}

#[test]
fn without_memory_a_session_is_told_so_or_the_server_is_down(
    rt: HostRuntime,
) -> Result<(), AllocError> {
    play(&rt, rt.alloc(), ROOMY, &short_of_memory(COMES_AGAIN))
}

#[test]
fn without_memory_who_leaves_is_told_so_or_the_server_is_down(
    rt: HostRuntime,
) -> Result<(), AllocError> {
    play(&rt, rt.alloc(), ROOMY, &short_of_memory(LEAVES))
}

fn short_of_memory(steps: &'static [Step]) -> AsFarAsMemoryGoes {
    AsFarAsMemoryGoes {
        limit: ROOMY.limit,
        steps,
        cut_short: None,
    }
}
