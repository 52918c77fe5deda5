//! Snapshots that sessions' server takes: the new bank is on the disk that was not in use, for the
//! same state, and later deeds go there.

use super::script::Sessions;
use super::steps::{AsFarAsMemoryGoes, Step, done_as_said};
use linda_test_server::{Banks, Host, Kept, ROOMY, Scene, banks_on, play};
use std::alloc::{AllocError, Global};
use std::process::Abort;
use std::sync::Wait;

const NEW: Kept = (1, 0, 0);

const TWO: Kept = (3, 2, 1);

const THREE: Kept = (4, 3, 1);

const FOUR: Kept = (5, 4, 1);

/// Two deeds in one record, a snapshot, another deed, and another snapshot; then one in steps, with
/// a deed between them.
const STEPS: &[Step] = &[
    ("greet hello 2 7 fresh", "> 7 welcome 0\n", NEW),
    (
        "all 7 out 1 (\"a\", 3); 7 out 2 (\"a\", 4)",
        "> 7 did 1\n> 7 did 2\n> 7 stored 1 1\n> 7 stored 2 2\n",
        TWO,
    ),
    ("snapshot", "", TWO),
    ("7 out 3 (\"a\", 5)", "> 7 did 3\n> 7 stored 3 3\n", THREE),
    ("snapshot", "", THREE),
    ("begin", "", THREE),
    ("7 out 4 (\"a\", 6)", "> 7 did 4\n> 7 stored 4 4\n", FOUR),
    ("step", "> going\n", FOUR),
    ("step", "> going\n", FOUR),
    ("step", "> done\n", FOUR),
    ("step", "> idle\n", FOUR),
];

/// So many first steps are played, and these banks are on the disks then.
#[derive(Clone, Copy)]
struct Standing {
    steps: usize,
    banks: Banks,
}

impl<R: Wait + Abort> Scene<R> for Standing {
    fn play<S: Drop, O: Drop, H: Host<S, O>>(
        &self,
        rt: &R,
        alloc: Global,
        host: H,
    ) -> Result<(), AllocError> {
        let mut sessions = Sessions::new(alloc, host);
        let steps = STEPS.get(..self.steps).unwrap_or(STEPS);
        done_as_said(rt, alloc, &mut sessions, steps)?;
        let disks = sessions.into_host().into_disks();
        let banks = banks_on(alloc, disks, ROOMY.limit);
        assert_eq!(rt; banks, Some(self.banks), "{}", self.steps);
        Ok(())
    }
}

/// The first bank, on the left disk, is of generation 1; each snapshot is a bank without a record,
/// of the next generation, on the other disk. One in steps is none until its end, and has a record
/// for the deed between them.
const STANDING: &[Standing] = &[
    Standing {
        steps: 2,
        banks: Banks {
            is_right: false,
            in_use: (1, 1, TWO),
            other: None,
        },
    },
    Standing {
        steps: 3,
        banks: Banks {
            is_right: true,
            in_use: (2, 0, TWO),
            other: Some((1, 1, TWO)),
        },
    },
    Standing {
        steps: 4,
        banks: Banks {
            is_right: true,
            in_use: (2, 1, THREE),
            other: Some((1, 1, TWO)),
        },
    },
    Standing {
        steps: 5,
        banks: Banks {
            is_right: false,
            in_use: (3, 0, THREE),
            other: Some((2, 1, THREE)),
        },
    },
    Standing {
        steps: 9,
        banks: Banks {
            is_right: false,
            in_use: (3, 1, FOUR),
            other: None,
        },
    },
    Standing {
        steps: 11,
        banks: Banks {
            is_right: true,
            in_use: (4, 1, FOUR),
            other: Some((3, 1, FOUR)),
        },
    },
];

#[test]
fn a_snapshot_is_the_next_bank_on_the_other_disk(rt: HostRuntime) -> Result<(), AllocError> {
    for standing in STANDING {
        play(&rt, rt.alloc(), ROOMY, standing)?;
    }
    Ok(())
}

/// A snapshot in steps of a tuple that is taken beside it, while another is put.
const IN_STEPS: &[Step] = &[
    ("greet hello 2 7 fresh", "> 7 welcome 0\n", NEW),
    (
        "7 out 1 (\"a\", 3)",
        "> 7 did 1\n> 7 stored 1 1\n",
        (2, 1, 1),
    ),
    (
        "7 in 1 (\"a\", ?i)",
        "> 7 offer 1 1 (\"a\", 3)\n",
        (2, 1, 1),
    ),
    ("begin", "", (2, 1, 1)),
    (
        "all 7 accept 2 1 1; 7 out 3 (\"a\", 4)",
        "> 7 did 2\n> 7 did 3\n> 7 taken 2 1 (\"a\", 3)\n> 7 stored 3 2\n",
        (3, 1, 1),
    ),
    ("step", "> going\n", (3, 1, 1)),
    (
        "7 out 4 (\"a\", 5)",
        "> 7 did 4\n> 7 stored 4 3\n",
        (4, 2, 1),
    ),
    ("step", "> going\n", (4, 2, 1)),
    ("step", "> done\n", (4, 2, 1)),
    (
        "7 out 5 (\"a\", 6)",
        "> 7 did 5\n> 7 stored 5 4\n",
        (5, 3, 1),
    ),
    ("finish 7", "> 5 deeds, 4 ids\n", (5, 3, 1)),
];

#[test]
fn without_memory_a_snapshot_in_steps_ends_or_is_given_up(
    rt: HostRuntime,
) -> Result<(), AllocError> {
    let scene = AsFarAsMemoryGoes {
        limit: ROOMY.limit,
        steps: IN_STEPS,
        cut_short: None,
    };
    play(&rt, rt.alloc(), ROOMY, &scene)
}
