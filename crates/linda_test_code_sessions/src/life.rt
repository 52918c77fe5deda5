//! Life of one session, of 10,000 events from a seed, over a server in memory and without a socket.
//!
//! A client says what it may say and some of what it may not; its bytes come in pieces of any
//! length, and so do the replies; groups are served, snapshots taken, and the connection is lost at
//! any byte and comes again. Each reply is compared with that of a plain model.

mod client;
mod connection;
mod line;
mod model;
mod near;
mod random;
mod said;
mod story;

ghost use Rattle.std.specs.Prelude.{◌≡◌};
ghost use Rattle.linda_shared_accounts.specs.declared.limits.TheConstants.{PARTS};

use connection::{Connection, Far};
use linda_disk::{Disk, MemDisk, Torn};
use linda_shared::{Outlet, Seat, Shared};
use linda_shared_accounts::PARTS;
use linda_test_server::{Host, ROOMY, kept_after_crash, shared_on};
use model::Sums;
use near::Near;
use said::Told;
use std::alloc::{AllocError, Global};
use std::marker::Brand;
use std::sync::Wait;
use std::sync::ledger::{Blank, Ledger};

/// What was not as the model says.
type Wrong = &'static str;

/// Memory ran out.
const MEMORY: Wrong = "memory ran out";

/// What all draws come from.
const SEED: u64 = 10;

/// How many events a life has before its end.
const EVENTS: u32 = 10_000;

/// How a life went: how often each reply came, and then what the model and the server keep. If it
/// went wrong, after which event, and the last reply that came with the one that was due.
#[derive(Clone, Copy, Debug)]
struct Outcome {
    counts: [u64; 10],
    is_enough: bool,
    due: Sums,
    kept: Option<Sums>,
    events: u32,
    end: Result<(), Wrong>,
    heard: Option<(Told, Option<Told>)>,
}

// All events, and the end.
fn play<F: Far>(near: &mut Near, far: &mut F) -> (u32, Result<(), Wrong>) {
    for event in 0..EVENTS {
        if let Err(wrong) = near.event(far) {
            return (event, Err(wrong));
        }
    }
    (EVENTS, near.end(far))
}

// Plays over this server.
fn play_on<D: Disk, L: Ledger, R: Wait>(
    rt: &R,
    alloc: Global,
    shared: &Shared<D, L>,
    near: &mut Near,
) -> (u32, Result<(), Wrong>) {
    match Connection::new(rt, alloc, shared) {
        Ok(mut connection) => play(near, &mut connection),
        Err(_) => (0, Err(MEMORY)),
    }
}

// What the server reports, and keeps on its disks after a crash.
fn kept_by<S: Drop, O: Drop, H: Host<S, O>, R: Wait>(
    rt: &R,
    alloc: Global,
    host: H,
) -> Option<Sums> {
    let Ok(report) = host.finish(rt, Vec::new(alloc)) else {
        return None;
    };
    let disks = host.into_disks();
    let (next, tuples, clients) = kept_after_crash(alloc, disks, ROOMY.limit, Torn::Lost)?;
    if report.ids.checked_add(1) != Some(next) {
        return None;
    }
    Some(Sums {
        deeds: report.deeds,
        ids: report.ids,
        tuples,
        clients,
    })
}

// How the life of this seed goes.
fn lived<L: Ledger, R: Wait>(
    rt: &R,
    alloc: Global,
    blank: Blank,
    seed: u64,
) -> Result<Outcome, AllocError>
    requires { (blank.name ≡ L.name) × (blank.parts ≡ L.parts) × (L.parts ≡ PARTS) }
{
    let shared: Shared<MemDisk, L> = shared_on(alloc, blank, ROOMY)?;
    let mut near = Near::new(alloc, seed);
    let (events, end) = play_on(rt, alloc, &shared, &mut near);
    let kept = kept_by::<Seat<L>, Outlet<L>, Shared<MemDisk, L>, R>(rt, alloc, shared);
    Ok(Outcome {
        counts: near.counts,
        is_enough: near.has_enough(),
        due: near.story.model.sums(),
        kept,
        events,
        end,
        heard: near.story.heard,
    })
}

#[test]
fn each_reply_of_a_life_is_as_the_model_says(rt: HostRuntime) -> Result<(), AllocError> {
    let outcome = lived::<Brand, _>(&rt, rt.alloc(), Blank::new(PARTS), SEED)?;
    let is_as_due = outcome.end.is_ok() && outcome.kept == Some(outcome.due) && outcome.is_enough;
    assert!(rt; is_as_due, "{outcome:?}");
    Ok(())
}
