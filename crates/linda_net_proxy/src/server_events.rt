//! Arrivals from all servers of a client that wait to be taken.

ghost use Rattle.std.specs.Prelude.{◌≡◌, ◌↔◌, ◌++◌, [], Some, false, true, option_to_list};
ghost use Rattle.linda_net_proxy.specs.declared.server_events.ServerEvent.TheVariants as arrival;
ghost use Rattle.linda_net_proxy.specs.ServerEvents.{IsBrought, IsSame};

use linda_wire::Reply;
use std::alloc::Global;
use std::collections::VecDeque;

/// What came from a server.
#[derive(Drop)]
pub enum ServerEvent {
    /// It welcomed the client, with the last number that it keeps a reply for.
    Greeted(u64),
    /// A reply.
    Came(Reply),
    /// It refused the greeting, with this code and this detail, and is given up.
    Refused(u8, u64),
    /// What answered the greeting is no server, and is given up.
    NotAServer,
    /// There is no connection to it, and none is tried for until that is asked for.
    NoConnection,
    /// Memory ran out, and something that came may be lost.
    Memory,
}

/// What waits to be taken, each after the number of its server, in order of arrival.
#[derive(Drop)]
pub(crate) struct ServerEvents {
    waiting: VecDeque<(u32, ServerEvent)>,
    // Something came, and memory ran out for it.
    has_lost: bool,
}

impl ServerEvents {
    /// Nothing has come yet.
    pub(crate) fn new(alloc: Global) -> ServerEvents
        ensures waiting { result.waiting.items ≡ [] }
        ensures lost { result.has_lost ≡ false }
    {
        ServerEvents {
            waiting: VecDeque::new(alloc),
            has_lost: false,
        }
    }

    /// Brings what came from a server: it waits after all others. If memory runs out for it, that
    /// is remembered.
    pub(crate) fn bring(&mut self, server: u32, arrival: ServerEvent)
        ensures { IsBrought self.old (server, arrival) self.new }
    {
        if self.waiting.push_back((server, arrival)).is_err() {
            self.has_lost = true;
        }
    }

    /// Takes what came first, after the number of its server; `None` if nothing waits. If memory
    /// ran out for something that came, it is `Memory` of server 0, and nothing is taken.
    pub(crate) fn take(&mut self) -> Option<(u32, ServerEvent)>
        ensures lost { self.old.has_lost ≡ true → result ≡ Some (0, arrival.Memory) }
        ensures none { self.old.has_lost ≡ true → IsSame self.old self.new }
        ensures first { self.old.has_lost ≡ false
            → self.old.waiting.items ≡ option_to_list result ++ self.new.waiting.items }
        ensures same { self.new.has_lost ≡ self.old.has_lost }
    {
        if self.has_lost {
            return Some((0, ServerEvent::Memory));
        }
        self.waiting.pop_front()
    }

    /// Whether there is nothing to take.
    pub(crate) fn is_empty(&self) -> bool
        ensures { (result ≡ true) ↔ ((self.now.waiting.items ≡ []) × (self.now.has_lost ≡ false)) }
    {
        self.waiting.is_empty() && !self.has_lost
    }
}
