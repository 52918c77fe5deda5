//! Cast of a run: its clients and its servers, as the run sees them.

use crate::clients::draw::Trouble;
use crate::clients::words::Value;
use linda_client::{Call, ClientFault, Reaction};
use linda_disk::Torn;
use linda_wire::{Message, Reply};

/// What a server counts.
#[derive(Clone, Copy)]
pub struct Counts {
    pub tuples: usize,
    pub holds: usize,
    pub waits: usize,
}

/// Why a server did nothing.
#[derive(Clone, Copy, PartialEq, Eq)]
pub enum Refused {
    Full,
    Down,
}

/// What came of the opening of a server.
#[derive(Clone, Copy, PartialEq, Eq)]
pub enum Opened {
    Up,
    /// A disk failed.
    Failed,
    /// There is no server on the disks, or a damaged one.
    Broken,
}

/// Clients and servers, each by its place.
pub trait Cast {
    /// A client is called.
    fn call(&mut self, at: usize, call: Call) -> Result<Reaction, ClientFault>;

    /// A client of this number that has done nothing comes in place of one.
    fn renew(&mut self, at: usize, number: u32) -> Result<(), ClientFault>;

    /// Whether a server is up.
    fn is_up(&self, server: usize) -> bool;

    /// A server takes messages, at most 64, each of its client.
    fn handle(
        &mut self,
        server: usize,
        messages: &[(u32, Message)],
    ) -> Result<Vec<(u32, Reply)>, Refused>;

    /// The connection of a client has ended.
    fn close(&mut self, server: usize, client: u32) -> Result<Vec<(u32, Reply)>, Refused>;

    /// A server takes a snapshot.
    fn snapshot(&mut self, server: usize) -> Result<(), Refused>;

    /// A server stops, and this is left of its disks. Returns whether they are there.
    fn stop(&mut self, server: usize, left: Torn, right: Torn) -> bool;

    /// A server is opened on what is left, while this goes wrong with its disks.
    fn open(&mut self, server: usize, left: Trouble, right: Trouble) -> Opened;

    /// What a server counts. If it is down, nothing.
    fn count(&self, server: usize) -> Counts;

    /// The tuple with the least id that is not below this one in the space of a server; that is no
    /// value if it is not one of a run.
    fn next(&self, server: usize, id: u64) -> Option<(u64, Option<Value>)>;
}
