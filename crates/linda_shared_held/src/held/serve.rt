//! Several messages in one step of the server: its deeds get their receipts, and what it sends is
//! posted.

ghost use Rattle.std.specs.Prelude.{◌≡◌, ◌⊎◌, ◌+◌, ◌≤◌, ◌++◌, length, vec_len, vec_capacity};
ghost use Rattle.std.specs.Prelude.{IfErr, OnOk, OnErr};
ghost use Rattle.linda_store_step.specs.declared.size.TheConstants.{MAX_GROUP};
ghost use Rattle.linda_shared_accounts.specs.Telling.{receipts_in};
ghost use Rattle.linda_shared_held.specs.Kept.{kept, Attempts, ServesAll};

use linda_disk::Disk;
use linda_server::{Durable, ServeFault, Served};
use linda_shared_accounts::{SharedFault, SharedReceipt, receipts_of};
use linda_shared_outbox::Outboxes;
use linda_wire::Message;
use std::alloc::{AllocError, Global};

/// Serves the messages, keeps the receipts of their deeds, and posts what is sent. Returns for each
/// message the receipt of its deed, if it made one.
///
/// # Errors
///
/// `Full`, `Memory`: nothing changed. `Down`: the server is down, and nothing is reported.
pub(super) fn serve<D: Disk>(
    server: &mut Durable<D>,
    receipts: &mut Vec<SharedReceipt>,
    boxes: &mut Outboxes,
    alloc: Global,
    messages: &[(u32, Message)],
) -> Result<Vec<Option<SharedReceipt>>, SharedFault>
    requires few { length messages.now ≤ MAX_GROUP }
    ensures { ServesAll (kept server.old receipts.old boxes.old) messages.now result
        (kept server.new receipts.new boxes.new) }
{
    let _ = server.is_down();
    make_room(receipts, messages.len())?;
    let served = take_all(server, alloc, messages)?;
    let Ok((told, sends)) = receipts_of(alloc, served) else {
        server.give_up();
        return Err(SharedFault::Down);
    };
    let Ok(()) = boxes.make_places(&sends) else {
        server.give_up();
        return Err(SharedFault::Down);
    };
    let Ok(()) = keep_all(receipts, &told) else {
        server.give_up();
        return Err(SharedFault::Down);
    };
    boxes.post_all(sends);
    Ok(told)
}

// Makes room for so many more.
fn make_room(receipts: &mut Vec<SharedReceipt>, more: usize) -> Result<(), SharedFault>
    ensures room { OnOk result (vec_len receipts.new + more ≤ vec_capacity receipts.new) }
    ensures items { receipts.new.items ≡ receipts.old.items }
    ensures only_memory { IfErr result (λ fault. fault ≡ SharedFault.Memory) }
{
    match receipts.reserve(more) {
        Ok(()) => Ok(()),
        Err(_) => Err(SharedFault::Memory),
    }
}

// Serves the messages. What is known of a server that did not is as before.
fn take_all<D: Disk>(
    server: &mut Durable<D>,
    alloc: Global,
    messages: &[(u32, Message)],
) -> Result<Served, SharedFault>
    requires few { length messages.now ≤ MAX_GROUP }
    ensures { Attempts server.old messages.now result server.new }
{
    match server.serve_all(alloc, messages) {
        Ok(served) => Ok(served),
        Err(fault) => Err(fault_of(fault)),
    }
}

pub(super) fn fault_of(fault: ServeFault) -> SharedFault
    ensures full { result ≡ SharedFault.Full → fault ≡ ServeFault.Full }
    ensures down { result ≡ SharedFault.Down → (fault ≡ ServeFault.Full → ⊥) }
    ensures known { (result ≡ SharedFault.Full) ⊎ (result ≡ SharedFault.Down) }
{
    match fault {
        ServeFault::Full => SharedFault::Full,
        ServeFault::Down | ServeFault::Disk | ServeFault::Memory => SharedFault::Down,
    }
}

// Keeps those that are there, in the memory that they have. If one cannot be kept, none is.
fn keep_all(
    receipts: &mut Vec<SharedReceipt>,
    told: &[Option<SharedReceipt>],
) -> Result<(), AllocError>
    requires { vec_len receipts.old + length told.now ≤ vec_capacity receipts.old }
    ensures kept { OnOk result (receipts.new.items ≡ receipts.old.items ++ receipts_in told.now) }
    ensures err { OnErr result (receipts.new.items ≡ receipts.old.items) }
{
    let before = receipts.len();
    for one in told {
        if let Some(receipt) = one {
            let Ok(copy) = receipt.try_clone() else {
                receipts.truncate(before);
                return Err(AllocError);
            };
            receipts.push_reserved(copy);
        }
    }
    Ok(())
}
