//! Intake of a loop: what ready connections have goes into the batch.

use super::Sessions;
use crate::groups::Groups;
use crate::place::{LookOutcome, take_next};
use crate::socket::Socket;
use linda_net_marks::Counters;
use linda_net_relays::is_much;
use linda_shared::MOST_ASKED;
use std::sync::ledger::Ledger;

impl<S: Socket, L: Ledger> Sessions<S, L> {
    /// Takes what ready connections have, as far as there is room in the batch, and of each no more
    /// than its share. One that has more stays ready, after the others.
    pub(crate) fn gather(&mut self, batch: &mut Groups<L>, counters: &Counters) {
        for _ in 0..self.ready.len() {
            if !batch.takes_more() {
                return;
            }
            let Some(key) = self.ready.pop_front() else {
                return;
            };
            let stays = self.take_from(key, batch, counters);
            if stays && self.ready.push_back(key).is_ok() {
                continue;
            }
            if let Some(connection) = self.connections.get_mut(key) {
                connection.is_ready = false;
            }
            self.touch(key);
        }
    }

    // Takes what a connection has. Says whether it stays ready.
    fn take_from(&mut self, key: usize, batch: &mut Groups<L>, counters: &Counters) -> bool {
        let Some(connection) = self.connections.get_mut(key) else {
            return false;
        };
        let mut bytes: u64 = 0;
        for _ in 0..=MOST_ASKED {
            let found = take_next(
                connection,
                key,
                &mut self.buffer,
                &mut self.calls,
                batch,
                counters,
            );
            let read = connection.take_read();
            batch.share.read(read);
            match found {
                LookOutcome::Taken => {
                    let weight = connection.weight();
                    batch.share.plan(weight);
                    bytes = bytes.saturating_add(read).saturating_add(weight);
                    if is_much(bytes) {
                        return true;
                    }
                }
                // It is given again: soon, or once something came back.
                LookOutcome::Kept => return !connection.is_waiting(),
                LookOutcome::Later => return true,
                LookOutcome::None => return false,
            }
        }
        true
    }
}
