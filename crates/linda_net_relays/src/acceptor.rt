//! Acceptor of the loops, which lets connections in.

use crate::listeners::ListeningSockets;
use crate::loop_directory::LoopDirectory;
use linda_net_http::Stream;
use linda_net_marks::one_less;
use mio::net::{TcpListener, UnixListener};
use mio::{Interest, Registry, Token};
use std::io;
use std::io::ErrorKind;
use std::sync::Wait;

/// The token of the listeners.
pub const ACCEPTOR: usize = 0;

/// How many connections are let in before others are looked at.
const MOST_NEW: u32 = 64;

/// Listeners that do not wait, and how many more connections are let in.
#[derive(Drop)]
pub struct Acceptor {
    port: Option<TcpListener>,
    socket: Option<UnixListener>,
    // The port was asked first the last time: they take turns.
    is_ports_turn: bool,
    left: Option<u32>,
    // More may wait at a listener.
    may_accept: bool,
    // The last one could not be had.
    has_missed: bool,
    // The server went down: no other is let in.
    is_refused: bool,
    // It was said that no connection comes any more.
    is_closed: bool,
}

impl Acceptor {
    /// So many connections are let in, if a number is given.
    pub fn new(listeners: ListeningSockets, sessions: Option<u32>) -> Acceptor {
        let ListeningSockets { port, socket } = listeners;
        Acceptor {
            port: port.map(TcpListener::from_std),
            socket: socket.map(UnixListener::from_std),
            is_ports_turn: false,
            left: sessions,
            may_accept: true,
            has_missed: false,
            is_refused: false,
            is_closed: false,
        }
    }

    /// Has the listeners looked at when a connection comes.
    pub fn register(&mut self, registry: &Registry) -> io::Result<()> {
        if let Some(port) = &mut self.port {
            registry.register(port, Token(ACCEPTOR), Interest::READABLE)?;
        }
        if let Some(socket) = &mut self.socket {
            registry.register(socket, Token(ACCEPTOR), Interest::READABLE)?;
        }
        Ok(())
    }

    /// A connection may have come.
    pub fn wake(&mut self) {
        self.may_accept = true;
    }

    /// Whether more may wait at a listener, and none was missed: then nobody waits before
    /// looking.
    pub fn has_more(&self) -> bool {
        self.may_accept && !self.has_missed
    }

    /// Whether a connection could not be had: then it is tried again soon.
    pub fn has_missed(&self) -> bool {
        self.has_missed
    }

    /// Whether no connection comes any more.
    pub fn is_over(&self) -> bool {
        self.left == Some(0) || self.is_refused
    }

    /// Lets in those that wait, each to a loop. If the server is down none is, and none comes any
    /// more.
    pub fn accept<R: Wait>(&mut self, rt: &R, directory: &LoopDirectory, is_down: bool) {
        self.has_missed = false;
        if self.may_accept {
            self.accept_some(rt, directory, is_down);
        }
        self.is_refused = self.is_refused || is_down;
        if self.is_over() && !self.is_closed {
            self.is_closed = true;
            directory.close_all(rt);
        }
    }

    // Lets in some.
    fn accept_some<R: Wait>(&mut self, rt: &R, directory: &LoopDirectory, is_down: bool) {
        for _ in 0..MOST_NEW {
            if self.is_over() {
                self.may_accept = false;
                return;
            }
            match self.next() {
                Ok(stream) => {
                    if is_down {
                        self.is_refused = true;
                        return;
                    }
                    self.left = one_less(self.left);
                    directory.counters.count_connection();
                    if !directory.hand(rt, stream) {
                        directory.counters.count_end();
                    }
                }
                Err(error) => {
                    if error.kind() == ErrorKind::WouldBlock {
                        self.may_accept = false;
                    } else {
                        directory.counters.count_missed();
                        self.has_missed = true;
                    }
                    return;
                }
            }
        }
    }

    // The next connection, of the listener whose turn it is, or else of the other.
    fn next(&mut self) -> io::Result<Stream> {
        self.is_ports_turn = !self.is_ports_turn;
        if self.is_ports_turn {
            let found = next_of_port(&self.port);
            return if is_none_there(&found) {
                next_of_socket(&self.socket)
            } else {
                found
            };
        }
        let found = next_of_socket(&self.socket);
        if is_none_there(&found) {
            next_of_port(&self.port)
        } else {
            found
        }
    }
}

// Whether no connection waits there.
fn is_none_there(found: &io::Result<Stream>) -> bool {
    match found {
        Ok(_) => false,
        Err(error) => error.kind() == ErrorKind::WouldBlock,
    }
}

// The next connection to a port, if there is one.
fn next_of_port(port: &Option<TcpListener>) -> io::Result<Stream> {
    let Some(port) = port else {
        return Err(io::Error::from(ErrorKind::WouldBlock));
    };
    let (stream, _) = port.accept()?;
    Ok(Stream::Tcp(stream))
}

// The next connection to a unix socket, if there is one.
fn next_of_socket(socket: &Option<UnixListener>) -> io::Result<Stream> {
    let Some(socket) = socket else {
        return Err(io::Error::from(ErrorKind::WouldBlock));
    };
    let (stream, _) = socket.accept()?;
    Ok(Stream::Unix(stream))
}
