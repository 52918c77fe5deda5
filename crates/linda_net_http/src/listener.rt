//! Listeners: a port of this machine, or a unix socket.

use crate::stream::Stream;
use mio::{Interest, Registry, Token, net};
use std::io;
use std::net::TcpListener;
use std::os::fd::{AsFd, OwnedFd};
use std::os::unix::net::UnixListener;

/// A listener on which connections come in. Who may connect to a unix socket is up to the mode of
/// its file.
#[derive(Drop)]
pub enum Listener {
    /// A port of this machine.
    Port(TcpListener),
    /// A unix socket.
    Socket(UnixListener),
}

/// A listener that does not wait.
#[derive(Drop)]
pub(crate) enum PollListener {
    Port(net::TcpListener),
    Socket(net::UnixListener),
}

impl PollListener {
    /// The listener waits no more.
    ///
    /// # Errors
    ///
    /// The system refuses that.
    pub(crate) fn of(listener: Listener) -> io::Result<PollListener> {
        match listener {
            Listener::Port(port) => {
                port.set_nonblocking(true)?;
                Ok(PollListener::Port(net::TcpListener::from_std(port)))
            }
            Listener::Socket(socket) => {
                socket.set_nonblocking(true)?;
                Ok(PollListener::Socket(net::UnixListener::from_std(socket)))
            }
        }
    }

    /// Has it looked at when a connection comes.
    ///
    /// # Errors
    ///
    /// The system does not look at it.
    pub(crate) fn register(&mut self, registry: &Registry, token: Token) -> io::Result<()> {
        match self {
            PollListener::Port(port) => registry.register(port, token, Interest::READABLE),
            PollListener::Socket(socket) => registry.register(socket, token, Interest::READABLE),
        }
    }

    /// A second descriptor of it, which is only there to be closed; `None` if the system has no
    /// more.
    pub(crate) fn spare(&self) -> Option<OwnedFd> {
        match self {
            PollListener::Port(port) => port.as_fd().try_clone_to_owned().ok(),
            PollListener::Socket(socket) => socket.as_fd().try_clone_to_owned().ok(),
        }
    }

    /// The next connection.
    ///
    /// # Errors
    ///
    /// `WouldBlock` if none waits; what the system returns.
    pub(crate) fn accept(&self) -> io::Result<Stream> {
        match self {
            PollListener::Port(port) => {
                let (stream, _) = port.accept()?;
                Ok(Stream::Tcp(stream))
            }
            PollListener::Socket(socket) => {
                let (stream, _) = socket.accept()?;
                Ok(Stream::Unix(stream))
            }
        }
    }
}
