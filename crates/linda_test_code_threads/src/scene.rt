//! Scenes that are played over a new server that sessions share, with many threads.

ghost use Rattle.std.specs.Prelude.{◌≡◌};
ghost use Rattle.linda_shared_accounts.specs.declared.limits.TheConstants.{PARTS};

use super::crowd::crowd_comes;
use super::outlets::{hears_of_others, leaves_what_others_wait_for, reads_beside};
use linda_disk::MemDisk;
use linda_shared::{Outlet, Seat, Shared};
use linda_shared_accounts::PARTS;
use linda_test_server::{Host, ROOMY, shared_on};
use std::alloc::Global;
use std::marker::Brand;
use std::process::Abort;
use std::sync::Wait;
use std::sync::ledger::{Blank, Ledger};
use std::test::Fail;
use std::thread::Threads;
use std::time::Clock;

/// What is played.
#[derive(Clone, Copy)]
pub(super) enum Scene {
    /// Many come and go.
    Crowd,
    /// One thread reads what another's messages led to.
    Beside,
    /// One thread waits for what another session's messages lead to.
    News,
    /// Some wait for what another leaves, for good or not.
    Leaving { for_good: bool },
}

/// Plays it over a new server.
pub(super) fn play<R: Threads + Wait + Clock + Abort + Sync>(
    rt: &R,
    alloc: Global,
    scene: Scene,
) -> Result<(), Fail> {
    play_under::<Brand, R>(rt, alloc, Blank::new(PARTS), scene)
}

// Plays it with this ledger.
fn play_under<L: Ledger + Send + Sync, R: Threads + Wait + Clock + Abort + Sync>(
    rt: &R,
    alloc: Global,
    blank: Blank,
    scene: Scene,
) -> Result<(), Fail>
    requires { (blank.name ≡ L.name) × (blank.parts ≡ L.parts) × (L.parts ≡ PARTS) }
{
    let shared: Shared<MemDisk, L> = shared_on(alloc, blank, ROOMY)?;
    played::<Seat<L>, Outlet<L>, Shared<MemDisk, L>, R>(rt, alloc, shared, scene)
}

// Plays it over any host, so that the prover goes through the parts of a shared server once.
fn played<
    S: Drop + Send,
    O: Drop + Send,
    H: Host<S, O> + Sync,
    R: Threads + Wait + Clock + Abort + Sync,
>(rt: &R, alloc: Global, host: H, scene: Scene) -> Result<(), Fail> {
    match scene {
        Scene::Crowd => crowd_comes(rt, alloc, host),
        Scene::Beside => reads_beside(rt, alloc, host),
        Scene::News => hears_of_others(rt, alloc, host),
        Scene::Leaving { for_good } => leaves_what_others_wait_for(rt, alloc, host, for_good),
    }
}
