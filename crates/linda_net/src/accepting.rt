//! Connections that come, each with two threads of its own.

use crate::connection::ThreadConnection;
use crate::reading::read_all;
use crate::writing::write_all;
use linda_disk::Disk;
use linda_net_marks::{ACCEPT_PAUSE, one_less};
use linda_shared::Shared;
use std::alloc::Global;
use std::net::{TcpListener, TcpStream};
use std::sync::Wait;
use std::sync::ledger::Ledger;
use std::thread;
use std::thread::{Scope, Threads};
use std::time::{Clock, Duration};

/// Serves the connections that come to their ends, so many if a number is given, while the server
/// is up.
pub(crate) fn accept_all<D: Disk + Send, L: Ledger + Send + Sync, R: Threads + Wait + Clock + Sync>(
    rt: &R,
    alloc: Global,
    listener: &TcpListener,
    shared: &Shared<D, L>,
    sessions: Option<u32>,
) {
    thread::scope(thread::scope_env(), rt, |scope| {
        begin_all(scope, rt, alloc, listener, shared, sessions);
    });
}

// Begins to serve each connection that comes, so many if a number is given, while the server is up.
fn begin_all<'s, E, D: Disk + Send, L: Ledger + Send + Sync, R: Threads + Wait + Clock + Sync>(
    scope: &'s Scope<'s, E>,
    rt: &'s R,
    alloc: Global,
    listener: &TcpListener,
    shared: &'s Shared<D, L>,
    sessions: Option<u32>,
) {
    let mut left = sessions;
    if left == Some(0) {
        return;
    }
    for stream in listener.incoming() {
        if shared.is_down(rt) {
            return;
        }
        match stream {
            Ok(stream) => {
                begin(scope, rt, alloc, shared, stream);
                left = one_less(left);
            }
            Err(_) => thread::sleep(rt, Duration::from_millis(ACCEPT_PAUSE)),
        }
        if left == Some(0) {
            return;
        }
    }
}

// Begins to serve a connection. If no thread can be had it is closed.
fn begin<'s, E, D: Disk + Send, L: Ledger + Send + Sync, R: Threads + Wait + Clock + Sync>(
    scope: &'s Scope<'s, E>,
    rt: &'s R,
    alloc: Global,
    shared: &'s Shared<D, L>,
    stream: TcpStream,
) {
    let _ = scope
        .spawn(move || converse(rt, alloc, shared, stream))
        .is_err();
}

// Serves one connection to its end: this thread reads it, another one writes. If that cannot be had
// it is closed.
fn converse<D: Disk + Send, L: Ledger + Send + Sync, R: Threads + Wait + Clock + Sync>(
    rt: &R,
    alloc: Global,
    shared: &Shared<D, L>,
    stream: TcpStream,
) {
    let _ = stream.set_nodelay(true);
    let connection = ThreadConnection::new(stream);
    let lent = &connection;
    thread::scope(thread::scope_env(), rt, |scope| {
        if let Ok(writes) = scope.spawn(move || write_all(rt, alloc, shared, lent)) {
            let ended = read_all(rt, alloc, shared, lent);
            writes.join(rt);
            ended.leave(rt, alloc, shared, lent);
        }
    });
}
