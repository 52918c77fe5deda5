//! Serving the connections of a listener.

use crate::carry::Sides;
use std::alloc::Global;
use std::io::Eprint;
use std::net::{Net, TcpListener, TcpStream};
use std::os::unix::net::{UnixListener, UnixStream};
use std::sync::Wait;
use std::thread;
use std::thread::{Scope, Threads};
use std::time::{Clock, Duration};

/// How long nobody is let in if a connection could not be had, as if no file is left for it, in
/// milliseconds.
const REST: u64 = 10;

/// Serves the connections that come, each in two threads of its own. One that cannot be served is
/// closed, and no other waits for it.
pub(crate) fn serve<
    R: Net<Listener = TcpListener, Stream = TcpStream> + Threads + Wait + Clock + Eprint + Sync,
>(rt: &R, alloc: Global, listener: &UnixListener, server: &str) {
    thread::scope(thread::scope_env(), rt, |scope| {
        begin_all(scope, rt, alloc, listener, server);
    });
}

// Begins to serve each connection that comes.
fn begin_all<
    's,
    E,
    R: Net<Listener = TcpListener, Stream = TcpStream> + Threads + Wait + Clock + Eprint + Sync,
>(scope: &'s Scope<'s, E>, rt: &'s R, alloc: Global, listener: &UnixListener, server: &'s str) {
    for stream in listener.incoming() {
        match stream {
            Ok(client) => begin(scope, rt, alloc, server, client),
            Err(_) => thread::sleep(rt, Duration::from_millis(REST)),
        }
    }
}

// Begins to serve a connection. If no thread can be had it is closed.
fn begin<
    's,
    E,
    R: Net<Listener = TcpListener, Stream = TcpStream> + Threads + Wait + Clock + Eprint + Sync,
>(scope: &'s Scope<'s, E>, rt: &'s R, alloc: Global, server: &'s str, client: UnixStream) {
    let _ = scope
        .spawn(move || converse(rt, alloc, server, client))
        .is_err();
}

// Serves one connection to its end.
fn converse<
    R: Net<Listener = TcpListener, Stream = TcpStream> + Threads + Wait + Clock + Eprint + Sync,
>(rt: &R, alloc: Global, server: &str, client: UnixStream) {
    let Ok(server) = UnixStream::connect(rt, server) else {
        return;
    };
    let both = Sides { client, server };
    let sides = &both;
    thread::scope(thread::scope_env(), rt, |scope| {
        if scope.spawn(move || sides.carry_to_client(rt)).is_ok() {
            sides.carry_to_server(rt, alloc);
        }
    });
}
