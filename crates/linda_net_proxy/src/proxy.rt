//! A connection of a client to one server.

ghost use Rattle.std.specs.Prelude.{◌≡◌, ◌↔◌, ◌⊎◌, ◌++◌, None, Ok, IfOk, IfErr, IfSome};
ghost use Rattle.std.specs.Prelude.{IsErrOf};
ghost use Rattle.linda_wire.specs.Frames.{frame, reply as replies};
ghost use Rattle.linda_wire.specs.Stream.{Partial, IsWhole, front};
ghost use Rattle.linda_net_proxy.specs.declared.fault.ProxyFault.TheVariants as faults;

use crate::course::{hello_of, welcome_in};
use crate::fault::ProxyFault;
use linda_wire::{FrameFault, Message, Reply, ReplyFeed, encode_message};
use std::alloc::Global;
use std::io::{Read, Write};
use std::net::{Ipv4Addr, Net, Shutdown, SocketAddr, TcpStream};
use std::os::fd::OwnedFd;
use std::os::unix::net::UnixStream;

/// The most bytes that are read at once.
const PIECE: usize = 4096;

/// The most reads for one reply. Each that does not end the connection gives a byte at least.
const MAX_READS: u32 = 4_294_967_295;

/// A connection to a server. It is of use once the server has welcomed its client. Its stream may
/// be one of a unix socket: the system reads, writes and ends both alike.
#[derive(Drop)]
pub struct Proxy {
    stream: TcpStream,
    feed: ReplyFeed,
}

impl Proxy {
    /// Connects to the server that listens on this port of this machine. Nothing is said to it yet.
    ///
    /// # Errors
    ///
    /// `Unreachable`.
    pub fn connect<R: Net<Stream = TcpStream>>(
        rt: &R,
        alloc: Global,
        port: u16,
    ) -> Result<Proxy, ProxyFault> {
        let address = SocketAddr::from((Ipv4Addr::LOCALHOST, port));
        let Ok(stream) = TcpStream::connect(rt, address) else {
            return Err(ProxyFault::Unreachable);
        };
        let _ = stream.set_nodelay(true);
        let feed = ReplyFeed::new(alloc);
        Ok(Proxy { stream, feed })
    }

    /// Connects to the server that listens on the unix socket at this path. Nothing is said to it
    /// yet.
    ///
    /// # Errors
    ///
    /// `Unreachable`, also if this user may not connect.
    pub fn connect_at<R: Net<Stream = TcpStream>>(
        rt: &R,
        alloc: Global,
        path: &str,
    ) -> Result<Proxy, ProxyFault> {
        let Ok(stream) = UnixStream::connect(rt, path) else {
            return Err(ProxyFault::Unreachable);
        };
        let stream = TcpStream::from(OwnedFd::from(stream));
        let feed = ReplyFeed::new(alloc);
        Ok(Proxy { stream, feed })
    }

    /// Greets the server: with `fresh` as a client that was never used, which a server refuses that
    /// keeps a reply for it. Returns the last number that the server keeps. It waits for the
    /// answer.
    ///
    /// # Errors
    ///
    /// `Refused`, as the server said; `NotAServer`, if what came is no answer of a server; `Lost`;
    /// `Memory`. The server may have welcomed the client at the last two.
    pub fn greet(&mut self, alloc: Global, client: u32, fresh: bool) -> Result<u64, ProxyFault> {
        send(&mut self.stream, alloc, &hello_of(client, fresh))?;
        welcome_in(&self.receive(alloc)?)
    }

    /// A second handle of the same connection, for a thread that sends or ends it while another one
    /// receives.
    ///
    /// # Errors
    ///
    /// `Unreachable`. The connection is as before.
    pub fn sender(&self) -> Result<TcpStream, ProxyFault> {
        match self.stream.try_clone() {
            Ok(stream) => Ok(stream),
            Err(_) => Err(ProxyFault::Unreachable),
        }
    }

    /// The next reply. It waits until there is one.
    ///
    /// # Errors
    ///
    /// `Lost` if the connection ended; `NotAServer` if what came is no reply; `Memory`, after which
    /// it may be called again.
    pub fn receive(&mut self, alloc: Global) -> Result<Reply, ProxyFault> {
        let mut buffer = [0; PIECE];
        for _ in 0..MAX_READS {
            if let Some(reply) = next_reply(&mut self.feed, alloc)? {
                return Ok(reply);
            }
            let Ok(len) = self.stream.read(&mut buffer) else {
                return Err(ProxyFault::Lost);
            };
            if len == 0 {
                return Err(ProxyFault::Lost);
            }
            self.feed.feed(&buffer[..len])?;
        }
        Err(ProxyFault::Lost)
    }
}

// The reply at the front of what came, which is then read; `None` if there is less than a whole
// frame. What gives something else is no server.
fn next_reply(feed: &mut ReplyFeed, alloc: Global) -> Result<Option<Reply>, ProxyFault>
    ensures found { IfOk result (λ o.
        IfSome o (λ r. feed.old ≡ frame (replies.spell r) ++ feed.new)) }
    ensures partial { (result ≡ Ok None) ↔ (front replies feed.old ≡ Partial) }
    ensures fault { IfErr result (λ f. (f ≡ faults.NotAServer) ⊎ (f ≡ faults.Memory)) }
    ensures memory { IsErrOf result ProxyFault.Memory → IsWhole (front replies feed.old) }
{
    match feed.next(alloc) {
        Ok(found) => Ok(found),
        Err(FrameFault::Memory) => Err(ProxyFault::Memory),
        Err(_) => Err(ProxyFault::NotAServer),
    }
}

/// Sends a message.
///
/// # Errors
///
/// `Lost`: a part of it may have gone out. `Memory`: nothing has.
pub fn send(stream: &mut TcpStream, alloc: Global, message: &Message) -> Result<(), ProxyFault> {
    let mut bytes = Vec::new(alloc);
    encode_message(&mut bytes, message)?;
    match stream.write_all(&bytes) {
        Ok(()) => Ok(()),
        Err(_) => Err(ProxyFault::Lost),
    }
}

/// Ends a connection from both sides.
pub fn end(stream: &TcpStream) {
    let _ = stream.shutdown(Shutdown::Both);
}
