//! Ends of connections: what is left for them is written, their clients leave, and they are let go.

ghost use Rattle.std.specs.Prelude.{◌≡◌, None, IfSome};
ghost use Rattle.slab.specs.Slab.{get};

use super::Sessions;
use crate::groups::LoopCall;
use crate::socket::{ConnectionNotice, Socket};
use linda_disk::Disk;
use linda_net_marks::Counters;
use linda_net_relays::{Look, LoopDirectory};
use linda_shared::{Account, Shared};
use std::sync::Wait;
use std::sync::ledger::Ledger;

impl<S: Socket, L: Ledger> Sessions<S, L> {
    /// Writes what is to be written, and lets go those connections that are over.
    pub(crate) fn flush<R: Wait>(&mut self, rt: &R, directory: &LoopDirectory) {
        for _ in 0..self.to_write.len() {
            let Some(key) = self.to_write.pop() else {
                return;
            };
            self.flush_one(rt, directory, key);
        }
    }

    // Writes to one connection. If its client leaves that is a call.
    fn flush_one<R: Wait>(&mut self, rt: &R, directory: &LoopDirectory, key: usize) {
        let Some(connection) = self.connections.get_mut(key) else {
            return;
        };
        connection.is_touched = false;
        connection.flush(&directory.counters);
        if let Some(client) = connection.leaves() {
            connection.is_leaving = self.calls.push_back(LoopCall::Disconnected(key)).is_ok();
            let _ = self.clients.remove(&client);
            directory.shut(rt, client, self.index);
        }
        if connection.is_over() {
            connection.shut();
            self.let_go(key);
            directory.counters.count_end();
            if let Some(inbox) = directory.get(self.index) {
                inbox.loses();
            }
            return;
        }
        self.make_ready(key);
    }

    // Lets the connection of this key go, which has no account: its client has left the server.
    fn let_go(&mut self, key: usize)
        requires { IfSome (get self.old.connections key) (λ c. c.account ≡ None) }
    {
        let _ = self.connections.try_remove(key);
    }

    /// The account of a connection whose client leaves. The connection is over once it is written
    /// to.
    pub(crate) fn take_account(&mut self, key: usize) -> Option<Account<L>> {
        self.touch(key);
        let connection = self.connections.get_mut(key)?;
        connection.note(ConnectionNotice::Leaves);
        connection.account.take()
    }

    /// Gives up what ended connections do not take.
    pub(crate) fn give_up(&mut self, look: Look) {
        for key in 0..self.connections.capacity() {
            if let Some(connection) = self.connections.get_mut(key) {
                if connection.gives_up(look) {
                    self.touch(key);
                }
            }
        }
    }

    /// The connection of each client ends that holds a tuple and said nothing for so many seconds.
    /// Those in which it held nothing do not count: so one that waited long has all of the lease
    /// for what it is offered.
    pub(crate) fn end_late<D: Disk, R: Wait>(
        &mut self,
        rt: &R,
        shared: &Shared<D, L>,
        counters: &Counters,
        look: Look,
        seconds: u32,
    ) {
        for key in 0..self.connections.capacity() {
            if let Some(connection) = self.connections.get_mut(key) {
                let holds_any = connection.holds_any(rt, shared);
                if connection.is_late(look, seconds, holds_any) {
                    connection.end_with(None);
                    counters.count_lapse();
                    self.touch(key);
                }
            }
        }
    }

    /// All connections end: the server is down, or a reply was lost.
    pub(crate) fn end_all(&mut self) {
        for key in 0..self.connections.capacity() {
            if let Some(connection) = self.connections.get_mut(key) {
                connection.end_with(None);
            }
            self.touch(key);
        }
    }

    /// All connections are closed, even if something is still to be written to them.
    pub(crate) fn fail_all(&mut self) {
        for key in 0..self.connections.capacity() {
            if let Some(connection) = self.connections.get_mut(key) {
                connection.fail();
            }
            self.touch(key);
        }
    }
}
