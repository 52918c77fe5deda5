//! Keeping of a server's state: snapshots, whole or in steps.

use crate::servers::compare::compare;
use crate::servers::machine::Machine;
use crate::servers::side::{Renewal, Side};
use crate::servers::things::SNAPSHOTS;
use crate::servers::world::World;
use std::sync::Wait;

/// A snapshot begins, goes on or is taken whole, some clients are copied for one that begins later,
/// and what nobody needs is forgotten.
pub fn keep<S: Side, R: Wait>(rt: &Machine<'_, R>, side: &mut S, world: &mut World) {
    world.tally.count(SNAPSHOTS);
    match world.dice.below(10) {
        0 => snapshot(rt, side, world),
        1 => begin(rt, side, world),
        2 => pay(rt, side, world),
        3 => forget(rt, side, world),
        4 | 5 => copy(rt, side, world),
        _ => step(rt, side, world),
    }
    if side.count(rt).is_down && !world.is_down {
        world.model.bank.may_be_next = true;
    }
    compare(rt, side, world, None);
}

// What nobody needs is forgotten.
fn forget<S: Side, R: Wait>(rt: &R, side: &mut S, world: &mut World) {
    world.begin_call();
    side.forget(rt);
    world.end_call();
}

// Some clients are copied for a snapshot in steps that begins later.
fn copy<S: Side, R: Wait>(rt: &R, side: &mut S, world: &mut World) {
    let most = world.dice.below(3);
    world.begin_call();
    side.copy_clients(rt, most);
    world.end_call();
}

// A snapshot is taken whole.
fn snapshot<S: Side, R: Wait>(rt: &R, side: &mut S, world: &mut World) {
    world.begin_call();
    let came = side.snapshot(rt);
    world.end_call();
    if came == Renewal::Down {
        return;
    }
    let len = world.model.snapshot_len();
    let wanted = if world.model.bank.renew(len) {
        Renewal::Done
    } else {
        Renewal::Full
    };
    hold(world, came, wanted);
}

// A snapshot in steps begins.
fn begin<S: Side, R: Wait>(rt: &R, side: &mut S, world: &mut World) {
    world.begin_call();
    let came = side.begin_snapshot(rt);
    world.end_call();
    if came == Renewal::Down {
        return;
    }
    let len = world.model.snapshot_len();
    let wanted = if world.model.bank.begin_next(len) {
        Renewal::Going
    } else {
        Renewal::Full
    };
    hold(world, came, wanted);
}

// A step of a snapshot is taken, if one is begun and was not given up.
fn step<S: Side, R: Wait>(rt: &R, side: &mut S, world: &mut World) {
    let most = world.dice.below(256) as usize;
    world.begin_call();
    let came = side.step(rt, most);
    world.end_call();
    if came == Renewal::Down {
        return;
    }
    if came == Renewal::Idle {
        world.model.bank.give_up_next();
    }
    let is_begun = world.model.bank.next.is_some();
    if (came == Renewal::Idle) == is_begun {
        world.blame("a snapshot in steps is given up without a cause, or goes on without room");
    }
    if came == Renewal::Done {
        world.model.bank.end_next();
    }
}

// A snapshot is taken if it pays.
fn pay<S: Side, R: Wait>(rt: &R, side: &mut S, world: &mut World) {
    if side.snapshot_due(rt) {
        snapshot(rt, side, world);
    } else if world.model.bank.is_due() && !side.count(rt).is_down {
        world.blame("a message found no room, and no snapshot is due");
    }
}

fn hold(world: &mut World, came: Renewal, wanted: Renewal) {
    if came != wanted {
        world.blame("a snapshot was taken without room, or was refused");
    }
}
