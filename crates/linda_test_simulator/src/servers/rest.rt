//! Rest of a run: all that was sent comes, and all that was written is taken. Then nothing may be
//! left: a message that came is taken, and its reply is written.

use crate::servers::events::turn_both;
use crate::servers::machine::Machine;
use crate::servers::side::Side;
use crate::servers::things::RESTS;
use crate::servers::wires::{deliver_some, fetch_some};
use crate::servers::world::World;
use std::alloc::AllocError;
use std::sync::Wait;

/// How often all comes and is taken.
const ROUNDS: u32 = 2_000;

/// Comes to rest.
pub fn rest<S: Side, R: Wait>(
    rt: &Machine<'_, R>,
    side: &mut S,
    world: &mut World,
) -> Result<(), AllocError> {
    for _ in 0..ROUNDS {
        if world.is_down || world.fault.is_some() {
            return Ok(());
        }
        for at in 0..world.conns.len() {
            deliver_some(side, world, at, usize::MAX);
        }
        turn_both(rt, side, world);
        if world.is_over {
            return Ok(());
        }
        for at in 0..world.conns.len() {
            fetch_some(side, world, at, usize::MAX)?;
        }
        if is_at_rest(world) {
            break;
        }
    }
    world.tally.count(RESTS);
    if !world.is_down && !is_at_rest(world) {
        world.blame("a message that came is not taken, or not answered");
    }
    Ok(())
}

// Whether nothing is on its way over a connection that goes on, and all others are gone.
fn is_at_rest(world: &World) -> bool {
    for conn in world.conns.iter() {
        let is_idle = conn.wire.is_empty() && conn.sent.is_empty() && conn.due.is_empty();
        if conn.is_live() && !is_idle {
            return false;
        }
        // One that is lost goes, unless it is to write what nobody takes.
        if conn.is_used && conn.is_lost && conn.is_read {
            return false;
        }
    }
    true
}
