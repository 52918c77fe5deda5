//! Streams of the system as connections: they are let in, and woken by its events.

use super::{FIRST, Sessions};
use linda_net_http::Stream;
use mio::event::Event;
use mio::{Registry, Token};
use std::sync::ledger::Ledger;

impl<L: Ledger> Sessions<Stream, L> {
    /// Lets a connection in. Says whether that was possible; else it is closed.
    pub(crate) fn let_in(&mut self, registry: &Registry, stream: Stream) -> bool {
        stream.hurry();
        let Some(key) = self.insert(stream) else {
            return false;
        };
        if self.register(registry, key) {
            self.make_ready(key);
            return true;
        }
        let _ = self.connections.try_remove(key);
        false
    }

    // Has the connection of this key looked at when it may be read or written.
    fn register(&mut self, registry: &Registry, key: usize) -> bool {
        let Some(connection) = self.connections.get_mut(key) else {
            return false;
        };
        let token = Token(key.saturating_add(FIRST));
        connection.stream().register(registry, token).is_ok()
    }

    /// Something happened at a connection.
    pub(crate) fn wake(&mut self, event: &Event) {
        let token = event.token().0;
        if token < FIRST {
            return;
        }
        let is_shut = event.is_read_closed() || event.is_error();
        self.wake_key(token - FIRST, is_shut, event.is_writable());
    }
}
