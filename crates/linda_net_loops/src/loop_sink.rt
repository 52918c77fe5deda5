//! Sink of a loop for replies: it takes what is sent to clients while the loop has the server.

use crate::sessions::Sessions;
use crate::socket::Socket;
use linda_net_relays::LoopDirectory;
use linda_shared::{ReplySink, Sent};
use std::sync::Wait;
use std::sync::ledger::Ledger;
use std::time::{Clock, Instant};

/// A loop that serves a group. What is for its own clients is written to their connections, after
/// what other loops handed to it before; all else is handed to the loop that serves the client.
/// That is done under the server's lock, so what is sent to a client stays in order.
#[derive(Drop)]
pub(crate) struct LoopSink<'s, 'r, S: Socket, L: Ledger, C: Clock> {
    pub(crate) clock: &'r C,
    pub(crate) sessions: &'s mut Sessions<S, L>,
    pub(crate) directory: &'r LoopDirectory,
    // What other loops handed to this one before is taken.
    pub(crate) has_taken: bool,
    // Something was handed to another loop.
    pub(crate) has_handed: bool,
    // When the server was locked for the group.
    pub(crate) begin: Option<Instant>,
}

impl<S: Socket, L: Ledger, C: Clock> ReplySink for LoopSink<'_, '_, S, L, C> {
    fn begin(&mut self) {
        self.begin = Instant::now(self.clock).ok();
    }

    fn post<R: Wait>(&mut self, rt: &R, sent: Sent) {
        if !self.sessions.has(sent.client()) {
            self.directory.post(rt, sent);
            self.has_handed = true;
            return;
        }
        if !self.has_taken {
            self.has_taken = true;
            self.sessions.take_sent(rt, self.directory);
        }
        self.sessions.tell(&self.directory.counters, sent);
    }
}
