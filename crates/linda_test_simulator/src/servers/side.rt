//! Side of a server, as a run sees it: connections come, may be read or written, and are served in
//! turns.

use crate::servers::net::Pipe;
use linda_net_relays::Look;
use std::sync::Wait;
use std::time::Clock;

/// One of the two loops of a server.
#[derive(Clone, Copy, PartialEq, Eq)]
pub enum Loop {
    First,
    Second,
}

/// Where a connection is at its server.
#[derive(Clone, Copy, PartialEq, Eq)]
pub struct Place {
    pub which: Loop,
    pub key: usize,
}

/// A server with its connections.
pub trait Side {
    /// A connection comes to a loop. Returns its place, if there is memory.
    fn let_in(&mut self, which: Loop, pipe: Pipe) -> Option<Place>;

    /// The connection of this place may be read, to its end if it is shut, or written.
    fn wake(&mut self, place: Place, is_shut: bool, is_writable: bool);

    /// How many bytes the server has still to write to the connection of this place.
    fn unsent(&self, place: Place) -> usize;

    /// A loop takes what is ready, serves it, and writes what that led to.
    fn turn<R: Wait + Clock>(&mut self, rt: &R, which: Loop);

    /// A second has gone by: clients of a loop that are late are ended.
    fn look<R: Wait>(&mut self, rt: &R, which: Loop, look: Look, seconds: u32);

    /// Begins a snapshot in steps, takes a step of so many bytes, or takes one whole.
    fn begin_snapshot<R: Wait>(&mut self, rt: &R) -> Renewal;

    /// Copies so many clients at most for a snapshot in steps that begins later.
    fn copy_clients<R: Wait>(&mut self, rt: &R, most: u32);

    fn step<R: Wait>(&mut self, rt: &R, most: usize) -> Renewal;

    fn snapshot<R: Wait>(&mut self, rt: &R) -> Renewal;

    /// Whether a snapshot pays for itself.
    fn snapshot_due<R: Wait>(&self, rt: &R) -> bool;

    /// Forgets what nobody needs.
    fn forget<R: Wait>(&self, rt: &R);

    /// What the server counts.
    fn count<R: Wait>(&self, rt: &R) -> Counts;
}

/// What came of a snapshot, or of a step of one.
#[derive(Clone, Copy, PartialEq, Eq)]
pub enum Renewal {
    /// The new bank is in use.
    Done,
    /// It goes on.
    Going,
    /// None is begun.
    Idle,
    /// There is no room for it.
    Full,
    /// The server is down.
    Down,
}

/// What a server counts.
#[derive(Clone, Copy)]
pub struct Counts {
    pub tuples: usize,
    pub holds: usize,
    pub waits: usize,
    pub clients: usize,
    pub next: u64,
    pub deeds: u64,
    /// Bytes and records of the bank in use.
    pub used: usize,
    pub records: usize,
    pub is_down: bool,
}
