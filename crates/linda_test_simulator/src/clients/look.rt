//! Looks at the space of a server: each tuple that was put is there, or was taken, or may have
//! been.

use crate::clients::cast::Cast;
use crate::clients::world::World;

/// How many tuples are looked at at most.
const MOST_TUPLES: u32 = 1_000_000;

/// Looks at the space of a server that is up.
pub fn look<C: Cast>(cast: &C, world: &mut World, server: usize) {
    world.looks = world.looks.saturating_add(1);
    let mut from: u64 = 0;
    for _ in 0..MOST_TUPLES {
        let Some((id, value)) = cast.next(server, from) else {
            break;
        };
        let fault = world.rows.see(server, id, value, world.looks);
        world.blame_if(fault);
        from = id.saturating_add(1);
    }
    if misses_any(world, server) {
        world.blame("a tuple that was stored is lost");
    }
}

// Whether a tuple that was stored at the server is neither seen nor taken.
fn misses_any(world: &World, server: usize) -> bool {
    for row in world.rows.list.iter() {
        let is_there = row.server == server && row.id != 0 && !row.is_taken;
        if is_there && row.look != world.looks && !world.is_claimed(server, row.id) {
            return true;
        }
    }
    false
}
