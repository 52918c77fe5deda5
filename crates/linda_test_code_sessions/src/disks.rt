//! A disk that stops while a session's messages are written: they are done or not, all of them, and
//! nobody hears so.

use super::script::Sessions;
use super::steps::{Step, done_as_said};
use linda_disk::Torn;
use linda_test_server::{Host, Kept, Scene, Stand, kept_after_crash, play};
use std::alloc::{AllocError, Global};
use std::process::Abort;
use std::sync::Wait;

const LIMIT: usize = 1_000;

const BEFORE: Kept = (1, 0, 0);

const BEHIND: Kept = (3, 2, 1);

/// Two messages at once, in which the server goes down, and all that comes later.
const STEPS: &[Step] = &[
    ("greet hello 2 7 fresh", "> 7 welcome 0\n", BEFORE),
    ("greet hello 2 8 fresh", "> 8 welcome 0\n", BEFORE),
    (
        "all 7 out 1 (\"a\", 3); 7 out 2 (\"a\", 4)",
        "> down\n",
        BEFORE,
    ),
    ("7 out 1 (\"a\", 3)", "> down\n", BEFORE),
    ("8 in 1 (\"a\", ?i)", "> down\n", BEFORE),
    ("8 hello 2 8 known", "> down\n", BEFORE),
    ("all 8 out 1 (\"a\", 5); 8 cancel 1", "> down\n", BEFORE),
    ("greet hello 2 9 fresh", "> down\n", BEFORE),
    ("snapshot", "> down\n", BEFORE),
    ("wait 7", "", BEFORE),
    ("wait 8", "", BEFORE),
    ("leave 8", "> down\n", BEFORE),
    ("finish 7", "> down\n", BEFORE),
];

/// A crash that leaves so much, and what the server opened after it keeps.
#[derive(Clone, Copy)]
struct Stopped {
    torn: Torn,
    kept: Kept,
}

impl<R: Wait + Abort> Scene<R> for Stopped {
    fn play<S: Drop, O: Drop, H: Host<S, O>>(
        &self,
        rt: &R,
        alloc: Global,
        host: H,
    ) -> Result<(), AllocError> {
        let mut sessions = Sessions::new(alloc, host);
        done_as_said(rt, alloc, &mut sessions, STEPS)?;
        let disks = sessions.into_host().into_disks();
        let now = kept_after_crash(alloc, disks, LIMIT, self.torn);
        assert_eq!(rt; now, Some(self.kept), "{:?}", self.torn);
        Ok(())
    }
}

/// The device call of an append, how much a crash leaves, and what is kept then: the gate is opened
/// by the third call, and synced by the fourth.
const STOPS: &[(u64, Torn, Kept)] = &[
    (0, Torn::Kept, BEFORE),
    (0, Torn::Lost, BEFORE),
    (0, Torn::Filled(1), BEFORE),
    (1, Torn::Kept, BEFORE),
    (1, Torn::Lost, BEFORE),
    (1, Torn::Filled(1), BEFORE),
    (2, Torn::Kept, BEHIND),
    (2, Torn::Lost, BEFORE),
    (2, Torn::Filled(0), BEFORE),
    (2, Torn::Filled(1), BEHIND),
    (2, Torn::Filled(0xff), BEFORE),
    (3, Torn::Kept, BEHIND),
    (3, Torn::Lost, BEFORE),
    (3, Torn::Filled(1), BEHIND),
];

#[test]
fn a_stop_in_a_batch_is_down_to_all_and_leaves_all_or_nothing(
    rt: HostRuntime,
) -> Result<(), AllocError> {
    for stop in STOPS {
        let (call, torn, kept) = *stop;
        let stand = Stand {
            limit: LIMIT,
            stops_in: Some(call),
        };
        play(&rt, rt.alloc(), stand, &Stopped { torn, kept })?;
    }
    Ok(())
}
