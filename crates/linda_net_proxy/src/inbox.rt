//! Inbox for what comes from all servers of a client, in order of arrival.

use crate::server_events::{ServerEvent, ServerEvents};
use std::alloc::Global;
use std::sync::{Condvar, CondvarTimeouts, Mutex, Wait};
use std::time::{Clock, Duration};

/// What an inbox keeps under its lock.
#[derive(Drop)]
struct InboxState {
    arrivals: ServerEvents,
    // Nobody takes any more.
    is_over: bool,
}

/// The arrivals of all servers, which the threads of their connections bring and one thread takes.
#[derive(Drop)]
pub struct EventInbox {
    kept: Mutex<InboxState>,
    arrived: Condvar,
}

impl EventInbox {
    /// Nothing has come yet.
    pub fn new(alloc: Global) -> EventInbox {
        EventInbox {
            kept: Mutex::new(InboxState {
                arrivals: ServerEvents::new(alloc),
                is_over: false,
            }),
            arrived: Condvar::new(),
        }
    }

    /// Brings what came from a server.
    pub fn bring(&self, rt: &impl Wait, server: u32, arrival: ServerEvent) {
        self.kept.lock(rt).arrivals.bring(server, arrival);
        self.arrived.notify_one();
    }

    /// What came first, after the number of its server; `None` if nothing has come for so many
    /// milliseconds.
    pub fn take<R: Wait + Clock>(&self, rt: &R, pause: u64) -> Option<(u32, ServerEvent)> {
        let (mut kept, _) = self.arrived.wait_timeout_while(
            rt,
            self.kept.lock(rt),
            Duration::from_millis(pause),
            |kept| kept.arrivals.is_empty(),
        );
        kept.arrivals.take()
    }

    /// What came first, after the number of its server; `None` if nothing waits. It waits for
    /// nobody.
    pub fn take_now(&self, rt: &impl Wait) -> Option<(u32, ServerEvent)> {
        self.kept.lock(rt).arrivals.take()
    }

    /// Nobody takes any more.
    pub fn end(&self, rt: &impl Wait) {
        self.kept.lock(rt).is_over = true;
    }

    /// Whether nobody takes any more.
    pub fn is_over(&self, rt: &impl Wait) -> bool {
        self.kept.lock(rt).is_over
    }
}
