//! Rig: a server on two disks in memory, with the connections of two loops.

use crate::servers::disk::TornDisk;
use crate::servers::net::Pipe;
use crate::servers::side::{Counts, Loop, Place, Renewal, Side};
use linda_net_loops::Serving;
use linda_net_relays::{Look, LoopDirectory, LoopInbox};
use linda_shared::{Progress, Shared, SharedFault};
use mio::{Poll, Token, Waker};
use std::alloc::Global;
use std::io;
use std::net::Net;
use std::sync::Wait;
use std::sync::ledger::Ledger;
use std::time::Clock;

/// A server and its connections. Its loops take turns, so none of them is woken.
#[derive(Drop)]
pub struct Rig<L: Ledger> {
    shared: Shared<TornDisk, L>,
    directory: LoopDirectory,
    first: Serving<Pipe, L>,
    second: Serving<Pipe, L>,
}

impl<L: Ledger> Rig<L> {
    /// A server without connections.
    pub fn new(
        alloc: Global,
        shared: Shared<TornDisk, L>,
        directory: LoopDirectory,
    ) -> io::Result<Rig<L>> {
        let first = Serving::new(alloc, 0)?;
        let second = Serving::new(alloc, 1)?;
        Ok(Rig {
            shared,
            directory,
            first,
            second,
        })
    }

    /// The disks of the server.
    pub fn into_disks(self) -> (TornDisk, TornDisk) {
        let Rig { shared, .. } = self;
        shared.into_server().into_disks()
    }
}

/// What two loops hand to each other.
pub fn relays_of<R: Net>(rt: &R, alloc: Global) -> io::Result<LoopDirectory> {
    let mut inboxes = Vec::new(alloc);
    for _ in 0..2 {
        let poll = Poll::new(rt)?;
        let waker = Waker::new(poll.registry(), Token(0))?;
        inboxes.push(LoopInbox::new(alloc, waker))?;
    }
    Ok(LoopDirectory::new(alloc, inboxes))
}

// What came of a snapshot that was not taken.
fn refused(fault: SharedFault) -> Renewal {
    if fault == SharedFault::Full {
        Renewal::Full
    } else {
        Renewal::Down
    }
}

impl<L: Ledger> Side for Rig<L> {
    fn let_in(&mut self, which: Loop, pipe: Pipe) -> Option<Place> {
        let key = match which {
            Loop::First => self.first.let_in(pipe)?,
            Loop::Second => self.second.let_in(pipe)?,
        };
        Some(Place { which, key })
    }

    fn wake(&mut self, place: Place, is_shut: bool, is_writable: bool) {
        match place.which {
            Loop::First => self.first.wake(place.key, is_shut, is_writable),
            Loop::Second => self.second.wake(place.key, is_shut, is_writable),
        }
    }

    fn unsent(&self, place: Place) -> usize {
        match place.which {
            Loop::First => self.first.unsent(place.key),
            Loop::Second => self.second.unsent(place.key),
        }
    }

    fn turn<R: Wait + Clock>(&mut self, rt: &R, which: Loop) {
        let _ = match which {
            Loop::First => self.first.turn(rt, &self.shared, &self.directory),
            Loop::Second => self.second.turn(rt, &self.shared, &self.directory),
        };
    }

    fn look<R: Wait>(&mut self, rt: &R, which: Loop, look: Look, seconds: u32) {
        match which {
            Loop::First => self
                .first
                .look(rt, &self.shared, &self.directory, look, seconds),
            Loop::Second => self
                .second
                .look(rt, &self.shared, &self.directory, look, seconds),
        }
    }

    fn begin_snapshot<R: Wait>(&mut self, rt: &R) -> Renewal {
        match self.shared.begin_snapshot(rt) {
            Ok(()) => Renewal::Going,
            Err(fault) => refused(fault),
        }
    }

    fn copy_clients<R: Wait>(&mut self, rt: &R, most: u32) {
        let _ = self.shared.copy_clients(rt, most);
    }

    fn step<R: Wait>(&mut self, rt: &R, most: usize) -> Renewal {
        match self.shared.continue_snapshot(rt, most) {
            Ok(Progress::Idle) => Renewal::Idle,
            Ok(Progress::Going) => Renewal::Going,
            Ok(Progress::Done) => Renewal::Done,
            Err(fault) => refused(fault),
        }
    }

    fn snapshot<R: Wait>(&mut self, rt: &R) -> Renewal {
        match self.shared.snapshot(rt) {
            Ok(()) => Renewal::Done,
            Err(fault) => refused(fault),
        }
    }

    fn snapshot_due<R: Wait>(&self, rt: &R) -> bool {
        self.shared.snapshot_due(rt)
    }

    fn forget<R: Wait>(&self, rt: &R) {
        self.shared.forget(rt);
    }

    fn count<R: Wait>(&self, rt: &R) -> Counts {
        let gauge = self.shared.gauge(rt);
        Counts {
            tuples: gauge.tuples,
            holds: gauge.holds,
            waits: gauge.waits,
            clients: gauge.clients,
            next: gauge.next,
            deeds: gauge.deeds,
            used: gauge.used,
            records: gauge.records,
            is_down: gauge.is_down,
        }
    }
}
