//! A connection of two threads: its socket, and the outlet that goes from one to the other.

use linda_disk::Disk;
use linda_shared::{Outlet, Shared};
use std::net::{Shutdown, TcpStream};
use std::sync::ledger::Ledger;
use std::sync::{Condvar, CondvarTimeouts, Mutex, Wait};
use std::time::{Clock, Duration};

/// How long the writing thread waits for an outlet before it looks whether the server is up, in
/// milliseconds.
const PAUSE: u64 = 1_000;

/// The outlet of a client that was greeted, until the writing thread takes it, and after it gave it
/// back.
#[derive(Drop)]
struct Slot<L: Ledger> {
    outlet: Option<Outlet<L>>,
    // Nobody is greeted any more.
    is_over: bool,
}

/// A connection. Before its client is welcome the reading thread writes; afterwards only the
/// writing thread does, until it gives the outlet back.
#[derive(Drop)]
pub(crate) struct ThreadConnection<L: Ledger> {
    stream: TcpStream,
    slot: Mutex<Slot<L>>,
    filled: Condvar,
    // The writing thread has it while it writes, and the reading thread before it submits.
    turn: Mutex<()>,
}

impl<L: Ledger> ThreadConnection<L> {
    /// Nobody was greeted yet.
    pub(crate) fn new(stream: TcpStream) -> ThreadConnection<L> {
        ThreadConnection {
            stream,
            slot: Mutex::new(Slot {
                outlet: None,
                is_over: false,
            }),
            filled: Condvar::new(),
            turn: Mutex::new(()),
        }
    }

    /// The socket.
    pub(crate) fn stream(&self) -> &TcpStream {
        &self.stream
    }

    /// Held while replies are written.
    pub(crate) fn turn(&self) -> &Mutex<()> {
        &self.turn
    }

    /// Puts the outlet down for the other thread.
    pub(crate) fn put_outlet<R: Wait>(&self, rt: &R, outlet: Outlet<L>) {
        self.slot.lock(rt).outlet = Some(outlet);
        self.filled.notify_all();
    }

    /// Takes the outlet, if it is there.
    pub(crate) fn take_outlet<R: Wait>(&self, rt: &R) -> Option<Outlet<L>> {
        self.slot.lock(rt).outlet.take()
    }

    /// Waits for the outlet, and takes it; nothing if nobody is greeted any more. If the server is
    /// down, which is seen once a second, nothing more is read.
    pub(crate) fn wait_outlet<D: Disk, R: Wait + Clock>(
        &self,
        rt: &R,
        shared: &Shared<D, L>,
    ) -> Option<Outlet<L>> {
        for _ in rt.forever() {
            let (is_over, outlet) = self.wait_for_some_time(rt);
            if outlet.is_some() || is_over {
                return outlet;
            }
            if shared.is_down(rt) {
                self.end_reading();
                return None;
            }
        }
        None
    }

    // Waits for the outlet for some time. Whether nobody is greeted any more, and the outlet if it
    // is there.
    fn wait_for_some_time<R: Wait + Clock>(&self, rt: &R) -> (bool, Option<Outlet<L>>) {
        let (mut slot, _) = self.filled.wait_timeout_while(
            rt,
            self.slot.lock(rt),
            Duration::from_millis(PAUSE),
            |slot| slot.outlet.is_none() && !slot.is_over,
        );
        (slot.is_over, slot.outlet.take())
    }

    /// Nobody is greeted any more.
    pub(crate) fn end_greeting<R: Wait>(&self, rt: &R) {
        self.slot.lock(rt).is_over = true;
        self.filled.notify_all();
    }

    /// Nothing more is read.
    pub(crate) fn end_reading(&self) {
        let _ = self.stream.shutdown(Shutdown::Read);
    }

    /// The connection ends.
    pub(crate) fn shut(&self) {
        let _ = self.stream.shutdown(Shutdown::Both);
    }
}
