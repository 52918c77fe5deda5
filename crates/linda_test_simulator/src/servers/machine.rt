//! Machine of a run: a clock that goes on by as much as the run says, each time that it is read.

use std::cell::Cell;
use std::io;
use std::sync::Wait;
use std::time::{Clock, Duration};

/// What a run waits with, and its clock.
pub struct Machine<'r, R: Wait> {
    rt: &'r R,
    nanos: Cell<u64>,
    pace: Cell<u64>,
}

impl<R: Wait> Drop for Machine<'_, R> {
    fn drop(self) {
        let Machine {
            rt: _,
            nanos: _,
            pace: _,
        } = self;
    }
}

impl<'r, R: Wait> Machine<'r, R> {
    /// The clock begins at 0.
    pub fn new(rt: &'r R) -> Machine<'r, R> {
        Machine {
            rt,
            nanos: Cell::new(0),
            pace: Cell::new(1_000),
        }
    }

    /// Each look at the clock takes so many nanoseconds.
    pub fn set_pace(&self, nanos: u64) {
        self.pace.set(nanos);
    }

    /// So many nanoseconds have gone by.
    pub fn pass(&self, nanos: u64) {
        self.nanos.set(self.nanos.get().saturating_add(nanos));
    }

    /// What it waits with.
    pub fn runtime(&self) -> &'r R {
        self.rt
    }

    /// The time.
    pub fn now(&self) -> u64 {
        self.nanos.get()
    }
}

impl<R: Wait> Wait for Machine<'_, R> {}

impl<R: Wait> Clock for Machine<'_, R> {
    fn monotonic(&self) -> io::Result<Duration> {
        self.pass(self.pace.get());
        Ok(Duration::from_nanos(self.nanos.get()))
    }

    fn since_1970(&self) -> io::Result<Duration> {
        self.monotonic()
    }
}
