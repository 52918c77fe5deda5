//! Network of a run: the bytes between clients and a server, and what the server's connections
//! note, in the order in which it is so.

ghost use Rattle.std.specs.Io.{ReadsAtMost, WritesAtMost};

use crate::servers::words::{Said, said_of};
use linda_net_loops::{ConnectionNotice, Socket};
use std::alloc::{AllocError, Global};
use std::cell::RefCell;
use std::collections::VecDeque;
use std::io;
use std::io::ErrorKind;
use std::rc::Rc;

/// How many connections there are at most.
pub const MOST_LINES: usize = 160;

/// How many notes have room.
const NOTES: usize = 16_384;

/// What a connection noted.
#[derive(Clone, Copy)]
pub enum Noted {
    /// Its first message, if it is one of a run, and what it came to.
    Greeted(Option<Said>, Option<Result<u64, (u8, u64)>>),
    /// A second Hello was answered.
    Busy,
    /// An answer to a message was heard, or that there is none.
    Heard(Option<Said>, bool),
    /// Its client gets nothing more, after this code and detail.
    Ended(Option<(u8, u64)>),
    /// It broke.
    Failed,
    /// Its client leaves.
    Leaves,
    /// It is over.
    Over,
}

/// The bytes of a connection on both sides of the network.
#[derive(Drop)]
pub struct Wire {
    /// What came to the server and was not read.
    pub inbox: Vec<u8>,
    /// What the server wrote and the client did not take.
    pub outbox: Vec<u8>,
    /// How many bytes the outbox takes.
    pub room: usize,
    /// No more bytes come to the server.
    pub is_shut: bool,
    /// It is lost.
    pub is_cut: bool,
    /// The server was to write more than there was room for.
    pub is_blocked: bool,
}

impl Wire {
    fn new(alloc: Global) -> Wire {
        Wire {
            inbox: Vec::new(alloc),
            outbox: Vec::new(alloc),
            room: 0,
            is_shut: false,
            is_cut: false,
            is_blocked: false,
        }
    }

    /// Nothing is on the way, and there is so much room.
    pub fn begin(&mut self, room: usize) {
        self.inbox.clear();
        self.outbox.clear();
        // Without memory a write fails.
        let _ = self.outbox.reserve(room);
        self.room = room;
        self.is_shut = false;
        self.is_cut = false;
        self.is_blocked = false;
    }

    // What a server reads.
    fn read(&mut self, buffer: &mut [u8]) -> io::Result<usize>
        ensures { ReadsAtMost result buffer.new }
    {
        if self.is_cut {
            return Err(io::Error::from(ErrorKind::ConnectionReset));
        }
        let len = buffer.len().min(self.inbox.len());
        if len == 0 && !self.is_shut {
            return Err(io::Error::from(ErrorKind::WouldBlock));
        }
        buffer[..len].copy_from_slice(&self.inbox[..len]);
        drop_front(&mut self.inbox, len);
        Ok(len)
    }

    // What a server writes.
    fn write(&mut self, bytes: &[u8]) -> io::Result<usize>
        ensures { WritesAtMost result bytes.now }
    {
        if self.is_cut {
            return Err(io::Error::from(ErrorKind::BrokenPipe));
        }
        let room = self.room.saturating_sub(self.outbox.len());
        let len = room.min(bytes.len());
        if len < bytes.len() {
            self.is_blocked = true;
        }
        if len == 0 {
            return Err(io::Error::from(ErrorKind::WouldBlock));
        }
        match self.outbox.extend_from_slice(&bytes[..len]) {
            Ok(()) => Ok(len),
            Err(_) => Err(io::Error::from(ErrorKind::OutOfMemory)),
        }
    }
}

/// Leaves out the first so many bytes.
pub fn drop_front(bytes: &mut Vec<u8>, len: usize) {
    let len = len.min(bytes.len());
    let left = bytes.len().saturating_sub(len);
    bytes.rotate_left(len);
    bytes.truncate(left);
}

/// All connections.
#[derive(Drop)]
pub struct Net {
    pub wires: Vec<Wire>,
    /// What was noted, each with its connection.
    pub notes: VecDeque<(usize, Noted)>,
    /// Something could not be noted.
    pub is_lost: bool,
}

impl Net {
    /// No connection.
    pub fn new(alloc: Global) -> Result<Net, AllocError> {
        let mut wires = Vec::new(alloc);
        for _ in 0..MOST_LINES {
            wires.push(Wire::new(alloc))?;
        }
        Ok(Net {
            wires,
            // A server that has no memory left has what it does noted all the same.
            notes: VecDeque::with_capacity(alloc, NOTES)?,
            is_lost: false,
        })
    }

    fn note(&mut self, conn: usize, noted: Noted) {
        if self.notes.push_back((conn, noted)).is_err() {
            self.is_lost = true;
        }
    }
}

/// A network that a run and the sockets of its server have.
pub type Shared = Rc<RefCell<Net>, Global>;

/// The server's end of a connection.
#[derive(Drop)]
pub struct Pipe {
    net: Shared,
    conn: usize,
}

impl Pipe {
    /// The server's end of this connection.
    pub fn new(net: Shared, conn: usize) -> Pipe {
        Pipe { net, conn }
    }

    fn put(&self, noted: Noted) {
        if let Ok(mut net) = self.net.try_borrow_mut() {
            let net = &mut *net;
            net.note(self.conn, noted);
        }
    }
}

impl Socket for Pipe {
    ghost use Rattle.linda_net_loops.specs.Wire.{unknown};

    ghost wire = { λ _. unknown };

    fn read(&mut self, buffer: &mut [u8]) -> io::Result<usize> {
        let Ok(mut net) = self.net.try_borrow_mut() else {
            return Err(io::Error::from(ErrorKind::Other));
        };
        let net = &mut *net;
        match net.wires.get_mut(self.conn) {
            Some(wire) => wire.read(buffer),
            None => Err(io::Error::from(ErrorKind::Other)),
        }
    }

    fn write(&mut self, bytes: &[u8]) -> io::Result<usize> {
        let Ok(mut net) = self.net.try_borrow_mut() else {
            return Err(io::Error::from(ErrorKind::Other));
        };
        let net = &mut *net;
        match net.wires.get_mut(self.conn) {
            Some(wire) => wire.write(bytes),
            None => Err(io::Error::from(ErrorKind::Other)),
        }
    }

    fn shut(&self) {
        self.put(Noted::Over);
    }

    fn note(&mut self, note: ConnectionNotice<'_>) {
        let noted = match note {
            ConnectionNotice::Greeted(message, answer) => Noted::Greeted(said_of(message), answer),
            ConnectionNotice::Busy => Noted::Busy,
            ConnectionNotice::Heard(message, is_done) => Noted::Heard(said_of(message), is_done),
            ConnectionNotice::Ended(Some(word)) => Noted::Ended(Some((word.code(), word.detail()))),
            ConnectionNotice::Ended(None) => Noted::Ended(None),
            ConnectionNotice::Failed => Noted::Failed,
            ConnectionNotice::Leaves => Noted::Leaves,
        };
        self.put(noted);
    }
}
