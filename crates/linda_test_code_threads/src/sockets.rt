//! A server that `serve` of `linda_net` serves to two clients, over sockets of this machine.

ghost use Rattle.std.specs.Prelude.{◌≡◌};
ghost use Rattle.linda_shared_accounts.specs.declared.limits.TheConstants.{PARTS};

use linda_disk::{Disk, MemDisk};
use linda_net::serve;
use linda_shared::{Shared, SharedFault};
use linda_shared_accounts::PARTS;
use linda_test_server::{ROOMY, ask, hello, put, shared_on};
use linda_tuple::Pattern;
use linda_wire::{Message, Reply, encode_message, encode_reply};
use std::alloc::{AllocError, Global};
use std::io::{Read, Write};
use std::marker::Brand;
use std::net::{Ipv4Addr, Net, Shutdown, SocketAddr, TcpListener, TcpStream};
use std::sync::Wait;
use std::sync::ledger::{Blank, Ledger};
use std::thread::Threads;
use std::time::Clock;
use std::{io, thread};

/// What came to each client, and to the end of serving.
type Heard = (Vec<u8>, Vec<u8>, Result<(), SharedFault>);

// Serves two connections of a new server, and speaks on them.
fn served<R: Net<Listener = TcpListener, Stream = TcpStream> + Threads + Wait + Clock + Sync>(
    rt: &R,
    alloc: Global,
) -> io::Result<Heard> {
    served_under::<Brand, R>(rt, alloc, Blank::new(PARTS))
}

// The same with this ledger.
fn served_under<
    L: Ledger + Send + Sync,
    R: Net<Listener = TcpListener, Stream = TcpStream> + Threads + Wait + Clock + Sync,
>(rt: &R, alloc: Global, blank: Blank) -> io::Result<Heard>
    requires { (blank.name ≡ L.name) × (blank.parts ≡ L.parts) × (L.parts ≡ PARTS) }
{
    let shared: Shared<MemDisk, L> = shared_on(alloc, blank, ROOMY)?;
    served_by(rt, alloc, &shared)
}

// The same of this server.
fn served_by<
    D: Disk + Send,
    L: Ledger + Send + Sync,
    R: Net<Listener = TcpListener, Stream = TcpStream> + Threads + Wait + Clock + Sync,
>(rt: &R, alloc: Global, shared: &Shared<D, L>) -> io::Result<Heard> {
    let listener = TcpListener::bind(rt, SocketAddr::from((Ipv4Addr::LOCALHOST, 0)))?;
    let address = listener.local_addr()?;
    let (ended, came) = thread::join(
        rt,
        || serve(rt, alloc, &listener, shared, Some(2)),
        || talk(rt, alloc, address),
    );
    let (first, second) = came?;
    Ok((first, second, ended))
}

// What comes to client 7, which puts a tuple, greets again and sends a frame of no bytes; and to
// client 8, which asks before that for the tuple, and ends when it is offered it.
fn talk<R: Net<Listener = TcpListener, Stream = TcpStream>>(
    rt: &R,
    alloc: Global,
    address: SocketAddr,
) -> io::Result<(Vec<u8>, Vec<u8>)> {
    let mut other = TcpStream::connect(rt, address)?;
    other.write_all(&of_second(alloc)?)?;
    let mut offered = to_second(alloc)?;
    let mut one = TcpStream::connect(rt, address)?;
    one.write_all(&of_first(alloc)?)?;
    let mut came = Vec::new(alloc);
    let _ = one.read_to_end(&mut came)?;
    offered.fill(0);
    other.read_exact(&mut offered)?;
    other.shutdown(Shutdown::Write)?;
    let _ = other.read_to_end(&mut offered)?;
    Ok((came, offered))
}

// What client 7 sends.
fn of_first(alloc: Global) -> Result<Vec<u8>, AllocError> {
    let mut bytes = Vec::new(alloc);
    encode_message(&mut bytes, &hello(7, true))?;
    encode_message(&mut bytes, &put(alloc, 1, "a", 3)?)?;
    encode_message(&mut bytes, &hello(7, false))?;
    bytes.extend_from_slice(&[0, 0, 0, 0])?;
    Ok(bytes)
}

// What comes to it: its tuple is stored, it is refused as busy, and then for its frame.
fn to_first(alloc: Global) -> Result<Vec<u8>, AllocError> {
    let mut bytes = Vec::new(alloc);
    encode_reply(&mut bytes, &Reply::Welcome { last: 0 })?;
    encode_reply(&mut bytes, &Reply::Stored { n: 1, id: 1 })?;
    encode_reply(&mut bytes, &Reply::Refused { code: 3, detail: 0 })?;
    encode_reply(&mut bytes, &Reply::Refused { code: 9, detail: 0 })?;
    Ok(bytes)
}

// What client 8 sends.
fn of_second(alloc: Global) -> Result<Vec<u8>, AllocError> {
    let mut bytes = Vec::new(alloc);
    encode_message(&mut bytes, &hello(8, true))?;
    encode_message(&mut bytes, &ask(alloc, 1, "a", Pattern::IntFormal)?)?;
    Ok(bytes)
}

// What comes to it: it is offered the tuple.
fn to_second(alloc: Global) -> Result<Vec<u8>, AllocError> {
    let mut bytes = Vec::new(alloc);
    encode_reply(&mut bytes, &Reply::Welcome { last: 0 })?;
    if let Message::Out { tuple, .. } = put(alloc, 1, "a", 3)? {
        let offer = Reply::Offer {
            ticket: 1,
            id: 1,
            tuple,
        };
        encode_reply(&mut bytes, &offer)?;
    }
    Ok(bytes)
}

#[test]
fn clients_are_served_in_two_threads_each(rt: HostRuntime) -> io::Result<()> {
    let (first, second, ended) = served(&rt, rt.alloc())?;
    let (wanted_first, wanted_second) = (to_first(rt.alloc())?, to_second(rt.alloc())?);
    assert_eq!(rt; first.as_slice(), wanted_first.as_slice());
    assert_eq!(rt; second.as_slice(), wanted_second.as_slice());
    assert!(rt; ended.is_ok());
    Ok(())
}
