//! Scenes that a test plays over a new server that sessions share, in one thread.

ghost use Rattle.std.specs.Prelude.{◌≡◌};
ghost use Rattle.linda_shared_accounts.specs.declared.limits.TheConstants.{PARTS};

use crate::host::Host;
use crate::stand::{Stand, shared_on};
use linda_disk::MemDisk;
use linda_shared::{Outlet, Seat, Shared};
use linda_shared_accounts::PARTS;
use std::alloc::{AllocError, Global};
use std::marker::Brand;
use std::sync::ledger::{Blank, Ledger};

/// What is played with such a runtime, in one thread: what a method sends to another may not rest
/// on its own bounds.
pub trait Scene<R> {
    /// Plays it. The server is new, and nobody has a seat.
    ///
    /// # Errors
    ///
    /// `AllocError` if memory runs out.
    fn play<S: Drop, O: Drop, H: Host<S, O>>(
        &self,
        rt: &R,
        alloc: Global,
        host: H,
    ) -> Result<(), AllocError>;
}

/// Plays the scene over a new server.
///
/// # Errors
///
/// `AllocError` if memory runs out.
pub fn play<R, P: Scene<R>>(
    rt: &R,
    alloc: Global,
    stand: Stand,
    scene: &P,
) -> Result<(), AllocError> {
    play_under::<Brand, R, P>(rt, alloc, Blank::new(PARTS), stand, scene)
}

// Plays it with this ledger.
fn play_under<L: Ledger, R, P: Scene<R>>(
    rt: &R,
    alloc: Global,
    blank: Blank,
    stand: Stand,
    scene: &P,
) -> Result<(), AllocError>
    requires { (blank.name ≡ L.name) × (blank.parts ≡ L.parts) × (L.parts ≡ PARTS) }
{
    let shared: Shared<MemDisk, L> = shared_on(alloc, blank, stand)?;
    scene.play::<Seat<L>, Outlet<L>, Shared<MemDisk, L>>(rt, alloc, shared)
}
