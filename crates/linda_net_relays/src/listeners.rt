//! Listeners, on which connections come in.

use std::io;
use std::net::TcpListener;
use std::os::unix::net::UnixListener;

/// The listeners on which connections come in: a port of this machine, a unix socket, or both.
#[derive(Drop)]
pub struct ListeningSockets {
    /// The listener of a port.
    pub port: Option<TcpListener>,
    /// The listener of a unix socket. Who may connect is up to the mode of its file.
    pub socket: Option<UnixListener>,
}

impl ListeningSockets {
    /// Has none of them wait for a connection.
    ///
    /// # Errors
    ///
    /// The system refuses that.
    pub fn hurry(&self) -> io::Result<()> {
        if let Some(port) = &self.port {
            port.set_nonblocking(true)?;
        }
        if let Some(socket) = &self.socket {
            socket.set_nonblocking(true)?;
        }
        Ok(())
    }
}
