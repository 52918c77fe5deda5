//! Serving, the connections of one loop without a system below: the caller says which may be read
//! or written.

use crate::groups::Groups;
use crate::service::{serve_asks, serve_deeds};
use crate::sessions::Sessions;
use crate::socket::Socket;
use linda_disk::Disk;
use linda_net_relays::{Look, LoopDirectory};
use linda_shared::Shared;
use std::alloc::{AllocError, Global};
use std::sync::Wait;
use std::sync::ledger::Ledger;
use std::time::Clock;

/// The connections of one loop, and what of theirs goes to the server next. A turn serves them by
/// the same calls as a turn of `Loops`, in the same order.
#[derive(Drop)]
pub struct Serving<S: Socket, L: Ledger> {
    sessions: Sessions<S, L>,
    batch: Groups<L>,
}

impl<S: Socket, L: Ledger> Serving<S, L> {
    /// The loop of this number has no connections.
    ///
    /// # Errors
    ///
    /// `AllocError`: nothing was made.
    pub fn new(alloc: Global, index: usize) -> Result<Serving<S, L>, AllocError> {
        let sessions = Sessions::new(alloc, index)?;
        let batch = Groups::new(alloc)?;
        Ok(Serving { sessions, batch })
    }

    /// A connection comes, of which something may be read. Returns its key; `None` if there is no
    /// memory, and then it is closed.
    pub fn let_in(&mut self, socket: S) -> Option<usize> {
        let key = self.sessions.insert(socket)?;
        self.sessions.make_ready(key);
        Some(key)
    }

    /// How many bytes are still to be written to the connection of this key.
    pub fn unsent(&self, key: usize) -> usize {
        self.sessions.unsent(key)
    }

    /// Something happened at the connection of this key: it may be read, to its end if it is shut,
    /// or written.
    pub fn wake(&mut self, key: usize, is_shut: bool, is_writable: bool) {
        self.sessions.wake_key(key, is_shut, is_writable);
    }

    /// Ends connections whose clients hold a tuple and said nothing for so many seconds, and gives
    /// up what ended ones do not take.
    pub fn look<D: Disk, R: Wait>(
        &mut self,
        rt: &R,
        shared: &Shared<D, L>,
        directory: &LoopDirectory,
        look: Look,
        seconds: u32,
    ) {
        self.sessions.give_up(look);
        self.sessions
            .end_late(rt, shared, &directory.counters, look, seconds);
    }

    /// Takes what other loops handed to it, and what is ready, serves that, and writes what it led
    /// to. Says whether the server is up; if it is not, all connections end.
    pub fn turn<D: Disk, R: Wait + Clock>(
        &mut self,
        rt: &R,
        shared: &Shared<D, L>,
        directory: &LoopDirectory,
    ) -> bool {
        let Serving { sessions, batch } = self;
        batch.share.begin_turn();
        sessions.take_sent(rt, directory);
        let mut is_up = serve_asks(rt, shared, directory, sessions, batch);
        is_up = serve_deeds(rt, shared, directory, sessions, batch) && is_up;
        is_up = !shared.is_down(rt) && is_up;
        if !is_up {
            sessions.end_all();
        }
        sessions.flush(rt, directory);
        is_up
    }
}
