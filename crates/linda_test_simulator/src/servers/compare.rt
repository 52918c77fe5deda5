//! Comparison of a server with the model: what it has written, and what it counts.

use crate::servers::side::{Loop, Side};
use crate::servers::world::World;
use std::sync::Wait;

/// At how many looks a connection that is lost is seen at most.
const MOST_LOOKS: u32 = 12;

impl World {
    /// How many bytes were written to a connection and not taken.
    pub fn written(&self, at: usize) -> usize {
        let Ok(net) = self.net.try_borrow() else {
            return 0;
        };
        match net.wires.get(at) {
            Some(wire) => wire.outbox.len(),
            None => 0,
        }
    }

    /// After a look: a client that holds a tuple and says nothing may not stay for ever, nor a
    /// connection of which its client knows nothing more.
    pub fn count_looks(&mut self) {
        let most = match self.lease {
            Some(lease) => lease.saturating_add(3),
            None => u32::MAX,
        };
        let mut stays = false;
        let mut is_stuck = false;
        for conn in self.conns.iter_mut() {
            let holds = match conn.greeted {
                Some(client) => self.model.holds_any(client),
                None => false,
            };
            if conn.is_used && conn.is_lost {
                conn.looks = conn.looks.saturating_add(1);
                is_stuck = is_stuck || conn.looks > MOST_LOOKS;
            } else if holds && conn.is_live() {
                conn.looks = conn.looks.saturating_add(1);
                stays = stays || conn.looks > most;
            } else {
                conn.looks = 0;
            }
        }
        if stays && !self.is_down {
            self.blame("a lease did not run out");
        }
        if is_stuck {
            self.blame("a connection that takes nothing stays");
        }
    }
}

/// Compares what connections are sent, and what the server counts. What was handed to a loop is
/// written in its next turn: so as much as is due is there after a turn of the connection's loop.
pub fn compare<S: Side, R: Wait>(rt: &R, side: &S, world: &mut World, turned: Option<Loop>) {
    if has_other_bytes(side, world, turned) {
        world.blame("more or fewer bytes are to be written than are due");
    }
    let counts = side.count(rt);
    if counts.is_down {
        world.is_down = true;
        return;
    }
    let model = &world.model;
    let is_so = counts.tuples == model.items.len()
        && counts.holds == model.held()
        && counts.waits == model.waiting()
        && counts.clients == model.lasts.len()
        && counts.next == model.next
        && counts.deeds == model.deeds
        && counts.used == model.bank.now.used
        && counts.records == model.bank.now.records;
    if !is_so {
        world.blame("the server counts otherwise");
    }
}

// Whether more bytes are to come over some connection than are due, or fewer over one of the loop
// that made a turn.
fn has_other_bytes<S: Side>(side: &S, world: &World, turned: Option<Loop>) -> bool {
    let mut at: usize = 0;
    for conn in world.conns.iter() {
        if conn.is_used && !conn.is_failed {
            let unsent = side.unsent(conn.place).saturating_add(world.written(at));
            let is_exact = turned == Some(conn.place.which);
            if unsent > conn.due.len() || is_exact && unsent != conn.due.len() {
                return true;
            }
        }
        at = at.saturating_add(1);
    }
    false
}
