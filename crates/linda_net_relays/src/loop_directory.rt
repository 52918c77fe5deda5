//! Directory of all loops: the inbox of each, and which loop serves which client.

ghost use Rattle.std.specs.Prelude.{◌≡◌};
ghost use Rattle.linda_net_relays.specs.Placing.{lighter};

use crate::loop_inbox::LoopInbox;
use linda_net_http::Stream;
use linda_net_marks::Counters;
use linda_shared_outbox::Sent;
use std::alloc::{AllocError, Global};
use std::collections::BTreeMap;
use std::sync::{Mutex, Wait};

/// Up to so many connections all are served by the first loop: few clients gain more from going in
/// one group than from a second thread.
const FEW: u64 = 32;

/// What all loops have in common: the inbox of each loop, the loop of each client that was greeted,
/// and what they count. A client has an entry from its greeting to its leaving, so what is sent to
/// it meanwhile goes to the loop that has its connection.
#[derive(Drop)]
pub struct LoopDirectory {
    /// What they count, for the thread that watches.
    pub counters: Counters,
    inboxes: Vec<LoopInbox>,
    routes: Mutex<BTreeMap<u32, usize>>,
}

impl LoopDirectory {
    /// Loops with these inboxes. Nobody was greeted, and nothing is counted.
    pub fn new(alloc: Global, inboxes: Vec<LoopInbox>) -> LoopDirectory {
        LoopDirectory {
            counters: Counters::new(alloc),
            inboxes,
            routes: Mutex::new(BTreeMap::new(alloc)),
        }
    }

    /// The inbox of this loop.
    pub fn get(&self, index: usize) -> Option<&LoopInbox> {
        self.inboxes.get(index)
    }

    /// The loop of this number does not run.
    pub fn set_off(&self, index: usize) {
        if let Some(inbox) = self.inboxes.get(index) {
            inbox.set_off();
        }
    }

    /// The client is served by this loop from now on.
    pub fn open<R: Wait>(&self, rt: &R, client: u32, index: usize) -> Result<(), AllocError> {
        self.routes.lock(rt).insert(client, index)?;
        Ok(())
    }

    /// This loop serves the client no more. If another one has it already, that stays.
    pub fn shut<R: Wait>(&self, rt: &R, client: u32, index: usize) {
        let mut routes = self.routes.lock(rt);
        if routes.get(&client) == Some(&index) {
            let _ = routes.remove(&client);
        }
    }

    /// Hands replies to the loop that serves their client; drops them if none does.
    pub fn post<R: Wait>(&self, rt: &R, sent: Sent) {
        let index = self.routes.lock(rt).get(&sent.client()).copied();
        if let Some(inbox) = index.and_then(|index| self.inboxes.get(index)) {
            inbox.post(rt, sent);
        }
    }

    /// Wakes the loops that others handed something to.
    pub fn wake_all<R: Wait>(&self, rt: &R) {
        for inbox in self.inboxes.iter() {
            inbox.wake(rt);
        }
    }

    /// No connection comes any more.
    pub fn close_all<R: Wait>(&self, rt: &R) {
        for inbox in self.inboxes.iter() {
            inbox.close(rt);
        }
    }

    /// The server is down.
    pub fn end_all<R: Wait>(&self, rt: &R) {
        for inbox in self.inboxes.iter() {
            inbox.set_down(rt);
        }
    }

    /// Hands a connection that came to the loop that has the fewest. Says whether that was
    /// possible.
    pub fn hand<R: Wait>(&self, rt: &R, stream: Stream) -> bool {
        let Some(inbox) = self.inboxes.get(self.least()) else {
            return false;
        };
        inbox.gains();
        if inbox.hand(rt, stream) {
            return true;
        }
        inbox.loses();
        false
    }

    // The loop that the next connection goes to.
    fn least(&self) -> usize {
        let mut least = Load {
            index: 0,
            count: u64::MAX,
        };
        for (index, inbox) in self.inboxes.iter().enumerate() {
            let count = inbox.load();
            least = lighter(least, Load { index, count });
        }
        least.index
    }
}

/// A loop, and how many connections it has.
#[derive(Clone, Copy)]
struct Load {
    index: usize,
    count: u64,
}

// Which of two loops the next connection goes to: the first loop as long as it has few, else the
// one that has fewer, and of two that have as many the one that comes first.
fn lighter(least: Load, next: Load) -> Load
    ensures { result ≡ lighter least next }
{
    if least.index == 0 && least.count < FEW || least.count <= next.count {
        least
    } else {
        next
    }
}
