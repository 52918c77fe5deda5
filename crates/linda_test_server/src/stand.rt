//! A server that a test's sessions share.

ghost use Rattle.std.specs.Prelude.{◌≡◌, false, IfSome};
ghost use Rattle.linda_shared_accounts.specs.declared.limits.TheConstants.{PARTS};

use linda_bag::{Bag, IndexBag};
use linda_disk::{MemDisk, Torn};
use linda_server::Durable;
use linda_shared::Shared;
use linda_shared_accounts::PARTS;
use linda_store_state::State;
use std::alloc::{AllocError, Global};
use std::sync::ledger::{Blank, Ledger};

/// How many device calls the making of a server takes on its left disk.
const CALLS_TO_CREATE: u64 = 6;

/// What a server keeps: its next id, how many tuples there are, and how many clients it knows.
pub type Kept = (u64, usize, usize);

/// The server that a test is over: its limit, and the device call after its making, from 0, inside
/// which its left disk stops, if it does.
#[derive(Clone, Copy)]
pub struct Stand {
    /// The most bytes that a bank may have.
    pub limit: usize,
    /// The device call.
    pub stops_in: Option<u64>,
}

/// One that has room for all, and goes on.
pub const ROOMY: Stand = Stand {
    limit: 1_048_576,
    stops_in: None,
};

/// A new server that nobody shares yet.
///
/// # Errors
///
/// `AllocError` if memory runs out.
pub fn shared_on<L: Ledger>(
    alloc: Global,
    blank: Blank,
    stand: Stand,
) -> Result<Shared<MemDisk, L>, AllocError>
    requires { (blank.name ≡ L.name) × (blank.parts ≡ L.parts) × (L.parts ≡ PARTS) }
{
    match made(alloc, stand) {
        Some(server) => Shared::new(alloc, server, blank),
        None => Err(AllocError),
    }
}

// A new server. None if there is no memory for it.
fn made(alloc: Global, stand: Stand) -> Option<Durable<MemDisk>>
    ensures { IfSome result (λ s. s.down ≡ false) }
{
    let mut left = MemDisk::new(alloc);
    if let Some(calls) = stand.stops_in {
        left.fuse(calls.saturating_add(CALLS_TO_CREATE));
    }
    match Durable::create(alloc, left, MemDisk::new(alloc), stand.limit) {
        Ok(server) => Some(server),
        Err(_) => None,
    }
}

/// What the server keeps.
pub fn kept(server: &Durable<MemDisk>) -> Kept {
    kept_in(server.state())
}

/// What the state keeps.
pub(crate) fn kept_in(state: &State<IndexBag>) -> Kept {
    (state.next, state.bag.len(), state.book.len())
}

/// What the server keeps that is on these disks after a crash that leaves so much of the left one;
/// `None` if it cannot crash so, or none opens there.
pub fn kept_after_crash(
    alloc: Global,
    disks: (MemDisk, MemDisk),
    limit: usize,
    torn: Torn,
) -> Option<Kept> {
    let (mut left, right) = disks;
    if left.crash(torn).is_err() {
        return None;
    }
    match Durable::open(alloc, left, right, limit) {
        Ok(server) => Some(kept(&server)),
        Err(_) => None,
    }
}
