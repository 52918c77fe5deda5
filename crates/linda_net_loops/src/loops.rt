//! The loops of listeners, each in a thread of its own.

use crate::event_loop::{Loop, begin_loop, run_loop};
use linda_disk::Disk;
use linda_net_relays::{Acceptor, Limits, ListeningSockets, LoopDirectory};
use linda_shared::Shared;
use std::alloc::Global;
use std::net::Net;
use std::sync::Wait;
use std::sync::ledger::Ledger;
use std::thread::{Scope, Threads};
use std::time::Clock;
use std::{io, thread};

/// How many loops there are. More gain nothing on a machine of four processors, where clients work
/// too.
const LOOPS: usize = 2;

/// The loops of listeners, of which the first lets connections in.
#[derive(Drop)]
pub struct Loops<L: Ledger> {
    first: Loop<L>,
    rest: Vec<Loop<L>>,
}

impl<L: Ledger> Loops<L> {
    /// Loops without connections, and what they have in common.
    ///
    /// # Errors
    ///
    /// The system has no room for all of them, or there is no memory.
    pub fn begin<R: Net>(rt: &R, alloc: Global) -> io::Result<(Loops<L>, LoopDirectory)> {
        let mut inboxes = Vec::new(alloc);
        let mut rest = Vec::new(alloc);
        let (first, inbox) = begin_loop(rt, alloc, 0)?;
        inboxes.push(inbox)?;
        for index in 1..LOOPS {
            let (one, inbox) = begin_loop(rt, alloc, index)?;
            inboxes.push(inbox)?;
            rest.push(one)?;
        }
        let loops = Loops { first, rest };
        Ok((loops, LoopDirectory::new(alloc, inboxes)))
    }

    /// Connections come from these listeners, which do not wait, as far as they are limited.
    ///
    /// # Errors
    ///
    /// The system does not look at a listener.
    pub fn open(&mut self, listeners: ListeningSockets, limits: Limits) -> io::Result<()> {
        if let Some(seconds) = limits.lease {
            self.first.limit(seconds);
            for one in self.rest.iter_mut() {
                one.limit(seconds);
            }
        }
        self.first.open(Acceptor::new(listeners, limits.sessions))
    }

    /// Runs the loops until all connections are over, the first one in this thread. A loop for
    /// which no thread can be had gets no connection.
    pub fn run<D: Disk + Send, R: Threads + Wait + Clock + Sync>(
        self,
        rt: &R,
        shared: &Shared<D, L>,
        directory: &LoopDirectory,
    )
    where
        L: Send + Sync,
    {
        let Loops { first, rest } = self;
        let mut first = first;
        thread::scope(thread::scope_env(), rt, |scope| {
            begin_rest(scope, rt, shared, directory, rest);
            run_loop(rt, shared, directory, &mut first);
        });
    }
}

// Runs these loops in threads of their own.
fn begin_rest<'s, E, D: Disk + Send, L: Ledger + Send + Sync, R: Threads + Wait + Clock + Sync>(
    scope: &'s Scope<'s, E>,
    rt: &'s R,
    shared: &'s Shared<D, L>,
    directory: &'s LoopDirectory,
    rest: Vec<Loop<L>>,
) {
    let mut index: usize = 0;
    for one in rest {
        index = index.saturating_add(1);
        if !begin_one(scope, rt, shared, directory, one) {
            directory.set_off(index);
        }
    }
}

// Runs a loop in a thread of its own. Says whether there is one.
fn begin_one<'s, E, D: Disk + Send, L: Ledger + Send + Sync, R: Threads + Wait + Clock + Sync>(
    scope: &'s Scope<'s, E>,
    rt: &'s R,
    shared: &'s Shared<D, L>,
    directory: &'s LoopDirectory,
    one: Loop<L>,
) -> bool {
    let begun = scope.spawn(move || run_one(rt, shared, directory, one));
    begun.is_ok()
}

// Runs a loop to its end.
fn run_one<D: Disk, L: Ledger, R: Wait + Clock>(
    rt: &R,
    shared: &Shared<D, L>,
    directory: &LoopDirectory,
    one: Loop<L>,
) {
    let mut one = one;
    run_loop(rt, shared, directory, &mut one);
}
