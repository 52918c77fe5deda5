//! The socket of a connection: to a port of this machine, or to a unix socket.

ghost use Rattle.std.specs.Io.{ReadsAtMost, WritesAtMost};

use mio::net::{TcpStream, UnixStream};
use mio::{Interest, Registry, Token};
use std::io;
use std::io::{Read, Write};
use std::net::Shutdown;

/// A socket that is read and written without waiting for it. All that a connection does is the same
/// with both kinds.
#[derive(Drop)]
pub enum Stream {
    /// To a port of this machine.
    Tcp(TcpStream),
    /// To a unix socket.
    Unix(UnixStream),
}

impl Stream {
    /// Has small pieces sent at once.
    pub fn hurry(&self) {
        match self {
            Stream::Tcp(stream) => {
                let _ = stream.set_nodelay(true);
            }
            Stream::Unix(_) => {}
        }
    }

    /// Has it looked at when it may be read or written.
    ///
    /// # Errors
    ///
    /// The system does not look at it.
    pub fn register(&mut self, registry: &Registry, token: Token) -> io::Result<()> {
        let both = Interest::READABLE | Interest::WRITABLE;
        match self {
            Stream::Tcp(stream) => registry.register(stream, token, both),
            Stream::Unix(stream) => registry.register(stream, token, both),
        }
    }

    /// Reads what is there.
    ///
    /// # Errors
    ///
    /// `WouldBlock` if there is nothing; what the system returns.
    pub fn read(&mut self, buffer: &mut [u8]) -> io::Result<usize>
        ensures { ReadsAtMost result buffer.new }
    {
        match self {
            Stream::Tcp(stream) => stream.read(buffer),
            Stream::Unix(stream) => stream.read(buffer),
        }
    }

    /// Writes what it takes.
    ///
    /// # Errors
    ///
    /// `WouldBlock` if it takes nothing; what the system returns.
    pub fn write(&mut self, bytes: &[u8]) -> io::Result<usize>
        ensures { WritesAtMost result bytes.now }
    {
        match self {
            Stream::Tcp(stream) => stream.write(bytes),
            Stream::Unix(stream) => stream.write(bytes),
        }
    }

    /// Says to the other side that nothing more is written.
    pub fn end_writing(&self) {
        match self {
            Stream::Tcp(stream) => {
                let _ = stream.shutdown(Shutdown::Write);
            }
            Stream::Unix(stream) => {
                let _ = stream.shutdown(Shutdown::Write);
            }
        }
    }

    /// Shuts it in both directions.
    pub fn shut(&self) {
        match self {
            Stream::Tcp(stream) => {
                let _ = stream.shutdown(Shutdown::Both);
            }
            Stream::Unix(stream) => {
                let _ = stream.shutdown(Shutdown::Both);
            }
        }
    }
}
