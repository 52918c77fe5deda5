//! Messages of several clients: in one step if that may be, else one by one.

ghost use Rattle.std.specs.Prelude.{◌≡◌, true, false, ◌+◌, ◌≤◌, ◌<◌, ◌^◌, length, IfOk};
ghost use Rattle.linda_store_step.specs.declared.size.TheConstants.{MAX_GROUP};
ghost use Rattle.linda_shared_outbox.specs.Waiting.{waits_for};
ghost use Rattle.linda_shared_held.specs.Kept.{kept, Asks, Fails, TakesAll};
ghost use Rattle.linda_shared_held.specs.Posted.{WereTaken};

use super::alone::serve_each;
use super::serve::serve;
use crate::snapshot_policy::SnapshotPolicy;
use linda_disk::Disk;
use linda_server::Durable;
use linda_shared_accounts::{SharedFault, SharedReceipt};
use linda_shared_outbox::Outboxes;
use linda_wire::Message;
use std::alloc::Global;

/// Takes the messages: all in one step of the server, or one by one if it is full or the count of
/// deeds could pass its last value. If it has no room for all of them, it has none for at least one
/// of them, once those before it were taken: that asks for a snapshot.
///
/// # Errors
///
/// `Down` before all, and exactly if the server is down: nothing is reported, and one that was down
/// is as before. `Memory`: nothing changed, but that a snapshot may be asked for.
pub(super) fn take<D: Disk>(
    server: &mut Durable<D>,
    receipts: &mut Vec<SharedReceipt>,
    boxes: &mut Outboxes,
    policy: &mut SnapshotPolicy,
    alloc: Global,
    count: u64,
    messages: &[(u32, Message)],
) -> Result<Vec<Option<SharedReceipt>>, SharedFault>
    requires few { length messages.now ≤ MAX_GROUP }
    ensures takes { TakesAll (kept server.old receipts.old boxes.old) count messages.now result
        (kept server.new receipts.new boxes.new) }
    ensures done { IfOk result (λ told. WereTaken server.old count messages.now
        told.items (waits_for boxes.old) (waits_for boxes.new) server.new) }
    ensures fails { Fails (kept server.old receipts.old boxes.old) result
        (kept server.new receipts.new boxes.new) }
    ensures asks { Asks server.old count messages.now policy.old result policy.new }
{
    if server.is_down() {
        return Err(SharedFault::Down);
    }
    if could_pass(count, messages.len()) {
        return serve_each(server, receipts, boxes, alloc, count, messages);
    }
    match serve(server, receipts, boxes, alloc, messages) {
        Ok(told) => Ok(told),
        Err(SharedFault::Full) => {
            policy.record_refusal();
            serve_each(server, receipts, boxes, alloc, count, messages)
        }
        Err(fault) => Err(fault),
    }
}

// Whether so many more could pass the last value of the count.
fn could_pass(count: u64, more: usize) -> bool
    ensures few { result ≡ false → count + more < 2 ^ 64 }
    ensures many { result ≡ true → 2 ^ 64 ≤ count + more }
{
    more as u64 > u64::MAX - count
}
