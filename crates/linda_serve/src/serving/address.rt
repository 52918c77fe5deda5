//! Address of a server, and the line that it prints once it listens.

ghost use Rattle.std.specs.Prelude.{◌≡◌, IfOk};
ghost use Rattle.std.specs.String.{string_bytes};
ghost use Rattle.linda_serve.specs.Address.{IsOfThisMachine, ready_line, ready_line_at};

use std::alloc::{AllocError, Global};
use std::net::{Ipv4Addr, SocketAddr, SocketAddrV4};

/// A port of 127.0.0.1, which only programs of this machine reach.
pub(super) fn of_this_machine(port: u16) -> SocketAddr
    ensures { IsOfThisMachine result port }
{
    SocketAddr::V4(SocketAddrV4::new(Ipv4Addr::new(127, 0, 0, 1), port))
}

/// The line that is printed once a server listens on a port.
pub(super) fn ready_line(alloc: Global, port: u16) -> Result<String, AllocError>
    ensures { IfOk result (λ line. string_bytes line ≡ ready_line port) }
{
    format!(in alloc; "ready {port}\n")
}

/// The line that is printed once a server listens only on a unix socket.
pub(super) fn ready_line_at(alloc: Global, path: &str) -> Result<String, AllocError>
    ensures { IfOk result (λ line. string_bytes line ≡ ready_line_at path.now) }
{
    format!(in alloc; "ready {path}\n")
}
