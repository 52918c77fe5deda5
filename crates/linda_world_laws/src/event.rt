//! Events of a world.

use linda_disk::Torn;
use linda_event::Event;
use linda_tuple::Tuple;

/// One thing that happens. Servers and packets are numbered from 0.
#[derive(Debug, Drop)]
pub enum WorldEvent {
    /// A client puts a tuple.
    Out {
        client: u32,
        tuple: Tuple,
    },
    /// A client waits for an event.
    Sync {
        client: u32,
        event: Event,
    },
    /// A client gives up what it waits for.
    Abandon(u32),
    /// A client leaves: it gives up its number.
    Leave(u32),
    /// The packet of this number is delivered, be it for the first time or again.
    Deliver(usize),
    /// A client is given the time.
    Tick {
        client: u32,
        now: u64,
    },
    /// A client sends again what is not answered.
    Resend(u32),
    /// A client sends again what this server has not answered.
    Reconnect {
        client: u32,
        server: u32,
    },
    /// A server ends what waits and what is held for a client.
    Close {
        server: u32,
        client: u32,
    },
    /// A server writes a snapshot.
    Snapshot(u32),
    /// A server is stopped at work on these packets, at most 64, and is opened again.
    Stop {
        server: u32,
        packets: Vec<usize>,
        at: u64,
        torn: Torn,
    },
    /// A server is stopped while it writes a snapshot, and is opened again.
    StopSnapshot {
        server: u32,
        at: u64,
        torn: Torn,
    },
}
