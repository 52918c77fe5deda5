//! Serving the connections of a listener.

ghost use Rattle.std.specs.Prelude.{◌≡◌, true, false};
ghost use Rattle.std.specs.Prelude.{IsOk, IsErrOf};

use crate::accepting::accept_all;
use linda_disk::Disk;
use linda_net_loops::Loops;
use linda_net_marks::{CounterValues, Counters, Notice};
use linda_net_relays::{Limits, ListeningSockets, LoopDirectory};
use linda_net_watch::{
    Seconds, Status, StatusPages, StatusServer, Watcher, take_snapshots, tell, watch,
};
use linda_shared::{Shared, SharedFault};
use std::alloc::Global;
use std::net::{Net, TcpListener};
use std::sync::ledger::Ledger;
use std::sync::{Mutex, Wait};
use std::thread::{Scope, Threads};
use std::time::Clock;
use std::{io, thread};

/// Serves the connections that come, each in two threads of its own: one reads and submits what
/// came, 64 messages at most at once, the other drains the outlet of its client and writes what
/// came out. If a number is given, so many connections are served, and it ends when the last of
/// them has. A connection for which no thread can be had is closed, and if a connection cannot be
/// had the next is waited for. One that stops reading, or sends half of a frame and waits, holds up
/// nobody else. Another thread takes a snapshot whenever one pays for itself, and goes on if it is
/// refused; if no thread can be had for that, none is taken.
///
/// # Errors
///
/// `Down`: the server went down; returned at the next connection, or at the end.
pub fn serve<D: Disk + Send, L: Ledger + Send + Sync, R: Threads + Wait + Clock + Sync>(
    rt: &R,
    alloc: Global,
    listener: &TcpListener,
    shared: &Shared<D, L>,
    sessions: Option<u32>,
) -> Result<(), SharedFault> {
    let is_over = Mutex::new(false);
    let over = &is_over;
    let counts = Counters::new(alloc);
    let counters = &counts;
    thread::scope(thread::scope_env(), rt, |scope| {
        let _ = scope
            .spawn(move || take_snapshots(rt, shared, counters, over))
            .is_err();
        accept_all(rt, alloc, listener, shared, sessions);
        *over.lock(rt) = true;
    });
    ended(shared.is_down(rt))
}

/// Serves the connections that come in a few loops, each in a thread of its own, which read what
/// came and write what is sent. A loop takes what its connections have to the server as one group,
/// those messages first of which no deed comes. An idle connection costs no thread. If a number is
/// given, so many connections are served. A client that holds a tuple and says nothing for longer
/// than the limits allow has its connection ended. No connection has more of a turn than its share.
/// If the server goes down all connections end, and so does this call. Another thread takes
/// snapshots, as in `serve`, and one reports to a watcher what happens, until all connections are
/// over: nobody else waits for it. If there is a status another thread answers what is asked there,
/// which takes the server for no longer than its numbers are read. Returns how it ended, and how
/// often what happened.
///
/// # Errors
///
/// `Down`, as of `serve`. `NoThread`: there is no room for the loops, and nobody was served.
pub fn serve_loop<
    D: Disk + Send,
    L: Ledger + Send + Sync,
    R: Net + Threads + Wait + Clock + Sync,
    T: Watcher + Send,
    A: StatusPages + Send + Drop,
>(
    rt: &R,
    alloc: Global,
    listeners: ListeningSockets,
    shared: &Shared<D, L>,
    limits: Limits,
    watcher: &Mutex<T>,
    status: Option<Status<A>>,
) -> (Result<(), SharedFault>, CounterValues) {
    let Ok((loops, directory)) = begin_loops(rt, alloc, listeners, limits) else {
        return (Err(SharedFault::NoThread), CounterValues::none());
    };
    let station = opened(rt, alloc, status);
    let held = Mutex::new(Some(loops));
    let all = &held;
    let is_over = Mutex::new(false);
    let over = &is_over;
    let lent = &directory;
    let seconds = Seconds::begin(rt, shared, station.is_some());
    thread::scope(thread::scope_env(), rt, |scope| {
        begin_beside(scope, rt, shared, over, &lent.counters, watcher, seconds);
        begin_station(scope, rt, shared, over, &lent.counters, watcher, station);
        run_loops(rt, shared, lent, all);
        *over.lock(rt) = true;
    });
    (ended(shared.is_down(rt)), directory.counters.tally())
}

// Loops for these listeners, and what they have in common.
fn begin_loops<L: Ledger, R: Net>(
    rt: &R,
    alloc: Global,
    listeners: ListeningSockets,
    limits: Limits,
) -> io::Result<(Loops<L>, LoopDirectory)> {
    let (mut loops, directory) = Loops::begin(rt, alloc)?;
    listeners.hurry()?;
    loops.open(listeners, limits)?;
    Ok((loops, directory))
}

// Runs the loops to their end; once.
fn run_loops<D: Disk + Send, L: Ledger + Send + Sync, R: Threads + Wait + Clock + Sync>(
    rt: &R,
    shared: &Shared<D, L>,
    directory: &LoopDirectory,
    held: &Mutex<Option<Loops<L>>>,
) {
    let taken = held.lock(rt).take();
    if let Some(loops) = taken {
        loops.run(rt, shared, directory);
    }
}

// Begins the threads beside those of connections: one reports to the watcher, one takes snapshots,
// until it is over.
fn begin_beside<
    's,
    E,
    D: Disk + Send,
    L: Ledger + Send + Sync,
    R: Threads + Wait + Clock + Sync,
    T: Watcher + Send,
>(
    scope: &'s Scope<'s, E>,
    rt: &'s R,
    shared: &'s Shared<D, L>,
    over: &'s Mutex<bool>,
    counters: &'s Counters,
    watcher: &'s Mutex<T>,
    seconds: Seconds,
) {
    let watches = scope.spawn(move || watch(rt, shared, over, counters, watcher, seconds));
    if watches.is_err() {
        tell(rt, shared, counters, watcher, Notice::Unwatched);
    }
    let renews = scope.spawn(move || take_snapshots(rt, shared, counters, over));
    if renews.is_err() {
        tell(rt, shared, counters, watcher, Notice::NoThread);
    }
}

// The station of a status, if there is one; or why it cannot be had.
fn opened<R: Net, A: StatusPages + Drop>(
    rt: &R,
    alloc: Global,
    status: Option<Status<A>>,
) -> Option<io::Result<StatusServer<A>>> {
    let status = status?;
    Some(StatusServer::open(rt, alloc, status))
}

// Begins the thread that answers what is asked, until it is over, if there is a station.
fn begin_station<
    's,
    E,
    D: Disk + Send,
    L: Ledger + Send + Sync,
    R: Threads + Wait + Clock + Sync,
    T: Watcher,
    A: StatusPages + Send + Drop + 's,
>(
    scope: &'s Scope<'s, E>,
    rt: &'s R,
    shared: &'s Shared<D, L>,
    over: &'s Mutex<bool>,
    counters: &'s Counters,
    watcher: &'s Mutex<T>,
    station: Option<io::Result<StatusServer<A>>>,
) {
    let Some(station) = station else {
        return;
    };
    let Ok(station) = station else {
        tell(rt, shared, counters, watcher, Notice::NoStatus);
        return;
    };
    let begun = scope.spawn(move || station.run(rt, shared, counters, over));
    if begun.is_err() {
        tell(rt, shared, counters, watcher, Notice::NoStatus);
    }
}

// How it ended, with a server that is down or is up.
fn ended(is_down: bool) -> Result<(), SharedFault>
    ensures down { is_down ≡ true → IsErrOf result SharedFault.Down }
    ensures up { is_down ≡ false → IsOk result }
{
    if is_down {
        return Err(SharedFault::Down);
    }
    Ok(())
}
