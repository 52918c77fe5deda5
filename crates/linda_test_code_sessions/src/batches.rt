//! Messages that go at once: what a bank with just enough room gets, and one with too little.

use super::script::Sessions;
use super::steps::{AsFarAsMemoryGoes, Step, done_as_said};
use linda_test_server::{Host, Kept, Scene, Stand, play};
use std::alloc::{AllocError, Global};
use std::process::Abort;
use std::sync::Wait;

const NEW: Kept = (1, 0, 0);

/// With just room enough for both in one record.
const ENOUGH: Stand = Stand {
    limit: 93,
    stops_in: None,
};

/// With room for the first only, and for nothing after it.
const TOO_LITTLE: Stand = Stand {
    limit: 92,
    stops_in: None,
};

const AT_ONCE: &[Step] = &[
    ("greet hello 2 7 fresh", "> 7 welcome 0\n", NEW),
    (
        "all 7 out 1 (\"a\", 3); 7 out 2 (\"a\", 4)",
        "> 7 did 1\n> 7 did 2\n> 7 stored 1 1\n> 7 stored 2 2\n",
        (3, 2, 1),
    ),
];

const ONE_BY_ONE: &[Step] = &[
    ("greet hello 2 7 fresh", "> 7 welcome 0\n", NEW),
    (
        "all 7 out 1 (\"a\", 3); 7 out 2 (\"a\", 4)",
        "> 7 did 1\n> 7 stored 1 1\n> 7 refused 6 0\n",
        (2, 1, 1),
    ),
];

/// What is done, and how the left disk ends: its length, and that of its first record.
#[derive(Clone, Copy)]
struct Bank {
    steps: &'static [Step],
    len: usize,
    record: u8,
}

/// Whether the byte at this offset is the wanted one.
pub(super) fn is_at(bytes: &[u8], at: usize, wanted: u8) -> bool {
    match bytes.get(at) {
        Some(byte) => *byte == wanted,
        None => false,
    }
}

// Whether the record after the snapshot of the empty state is open and so long.
fn has_record(bytes: &[u8], len: u8) -> bool {
    is_at(bytes, 33, 1)
        && is_at(bytes, 34, 0)
        && is_at(bytes, 35, 0)
        && is_at(bytes, 36, 0)
        && is_at(bytes, 37, len)
}

impl<R: Wait + Abort> Scene<R> for Bank {
    fn play<S: Drop, O: Drop, H: Host<S, O>>(
        &self,
        rt: &R,
        alloc: Global,
        host: H,
    ) -> Result<(), AllocError> {
        let mut sessions = Sessions::new(alloc, host);
        done_as_said(rt, alloc, &mut sessions, self.steps)?;
        let (left, _) = sessions.into_host().into_disks();
        let bytes = left.bytes();
        assert_eq!(rt; bytes.len(), self.len);
        assert!(rt; has_record(bytes, self.record));
        assert!(rt; is_at(bytes, self.len.saturating_sub(1), 0));
        Ok(())
    }
}

#[test]
fn messages_that_go_at_once_are_one_record(rt: HostRuntime) -> Result<(), AllocError> {
    let bank = Bank {
        steps: AT_ONCE,
        len: 93,
        record: 0x36,
    };
    play(&rt, rt.alloc(), ENOUGH, &bank)
}

#[test]
fn messages_that_do_not_fit_at_once_go_one_by_one(rt: HostRuntime) -> Result<(), AllocError> {
    let bank = Bank {
        steps: ONE_BY_ONE,
        len: 66,
        record: 0x1b,
    };
    play(&rt, rt.alloc(), TOO_LITTLE, &bank)
}

#[test]
fn without_memory_all_go_at_once_or_none(rt: HostRuntime) -> Result<(), AllocError> {
    let scene = AsFarAsMemoryGoes {
        limit: 93,
        steps: AT_ONCE,
        cut_short: None,
    };
    play(&rt, rt.alloc(), ENOUGH, &scene)
}

#[test]
fn without_memory_some_go_one_by_one(rt: HostRuntime) -> Result<(), AllocError> {
    let scene = AsFarAsMemoryGoes {
        limit: 92,
        steps: ONE_BY_ONE,
        cut_short: Some("> down\n> 7 stored 1 1\n"),
    };
    play(&rt, rt.alloc(), TOO_LITTLE, &scene)
}
