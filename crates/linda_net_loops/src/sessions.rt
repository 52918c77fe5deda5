//! The connections of a loop, and the sessions of their clients.

mod ends;
mod greetings;
mod intake;
mod replies;
mod streams;

ghost use Rattle.std.specs.Prelude.{◌≡◌, []};
ghost use Rattle.slab.specs.Slab.{slab_len};
ghost use Rattle.linda_shared.specs.Group.{group_of};

use crate::connection::Connection;
use crate::groups::LoopCall;
use crate::socket::Socket;
use linda_shared::{MessageGroup, Sent};
use slab::Slab;
use std::alloc::{AllocError, Global};
use std::collections::{BTreeMap, VecDeque};
use std::sync::ledger::Ledger;

/// The tokens before those of connections.
pub(crate) const FIRST: usize = 2;

/// How many bytes are read at once.
const PIECE: usize = 16_384;

/// The connections of one loop, by keys.
#[derive(Drop)]
pub(crate) struct Sessions<S: Socket, L: Ledger> {
    alloc: Global,
    // Which of the loops it is.
    index: usize,
    pub(crate) connections: Slab<Connection<S, L>>,
    // The connection of each client that was greeted here.
    clients: BTreeMap<u32, usize>,
    // Connections that may have something, and those that may have to be written to: each at most
    // once, so there is always room.
    ready: VecDeque<usize>,
    to_write: Vec<usize>,
    /// Clients that come and go: at most one for each connection.
    pub(crate) calls: VecDeque<LoopCall>,
    // Room for replies that other loops handed to this one.
    handed: Vec<Sent>,
    // How many bytes clients were given since this was asked last.
    bytes_sent: u64,
    buffer: Vec<u8>,
}

impl<S: Socket, L: Ledger> Sessions<S, L> {
    /// The loop of this number has no connections.
    pub(crate) fn new(alloc: Global, index: usize) -> Result<Sessions<S, L>, AllocError> {
        let buffer = Vec::from_elem(alloc, 0u8, PIECE)?;
        Ok(Sessions {
            alloc,
            index,
            connections: Slab::new(alloc),
            clients: BTreeMap::new(alloc),
            ready: VecDeque::new(alloc),
            to_write: Vec::new(alloc),
            calls: VecDeque::new(alloc),
            handed: Vec::new(alloc),
            bytes_sent: 0,
            buffer,
        })
    }

    /// A group for the place of one that is being served.
    pub(crate) fn empty_group(&self) -> MessageGroup<usize, L>
        ensures { result ≡ group_of 0 [] [] }
    {
        MessageGroup::placeholder(self.alloc)
    }

    /// Which of the loops it is.
    pub(crate) fn index(&self) -> usize {
        self.index
    }

    /// How many connections it has.
    pub(crate) fn len(&self) -> usize
        ensures { result ≡ slab_len self.now.connections }
    {
        self.connections.len()
    }

    /// Whether some connection may have something.
    pub(crate) fn has_ready(&self) -> bool {
        !self.ready.is_empty()
    }

    /// How many bytes are still to be written to the connection of this key.
    pub(crate) fn unsent(&self, key: usize) -> usize {
        match self.connections.get(key) {
            Some(connection) => connection.unsent(),
            None => 0,
        }
    }

    /// Whether the client was greeted here.
    pub(crate) fn has(&self, client: u32) -> bool {
        self.clients.contains_key(&client)
    }

    /// A connection comes. Returns its key; `None` if there is no memory, and then it is closed.
    pub(crate) fn insert(&mut self, stream: S) -> Option<usize> {
        if self.make_room().is_err() {
            return None;
        }
        match self.connections.insert(Connection::new(self.alloc, stream)) {
            Ok(key) => Some(key),
            Err(_) => None,
        }
    }

    // Makes room in the lists for one connection more.
    fn make_room(&mut self) -> Result<(), AllocError> {
        let count = self.connections.len().saturating_add(1);
        self.ready.reserve(count)?;
        self.to_write.reserve(count)?;
        self.calls.reserve(count)
    }

    /// Something happened at the connection of this key: it may be read, to its end if it is shut,
    /// or written.
    pub(crate) fn wake_key(&mut self, key: usize, is_shut: bool, is_writable: bool) {
        let Some(connection) = self.connections.get_mut(key) else {
            return;
        };
        connection.wake(is_shut);
        let writes = is_writable && connection.has_unsent();
        if writes {
            self.touch(key);
        }
        self.make_ready(key);
    }

    /// The connection may have something.
    pub(crate) fn make_ready(&mut self, key: usize) {
        if let Some(connection) = self.connections.get_mut(key) {
            if !connection.is_ready && connection.has_more() && self.ready.push_back(key).is_ok() {
                connection.is_ready = true;
            }
        }
    }

    // The connection is looked at when others are written to.
    fn touch(&mut self, key: usize) {
        if let Some(connection) = self.connections.get_mut(key) {
            if !connection.is_touched && self.to_write.push(key).is_ok() {
                connection.is_touched = true;
            }
        }
    }
}
