//! One outbox among those of a slab.

ghost use Rattle.std.specs.Prelude.{◌≡◌, ◌≢◌, ℕ, ◌+◌, OnOk};
ghost use Rattle.slab.specs.Slab as slab;
ghost use Rattle.linda_shared_outbox.specs.Boxes.{shown, posted, taken_out, unlisted, is_unlisted};
ghost use Rattle.linda_shared_outbox.specs.Boxes.{replies_in};
ghost use Rattle.linda_shared_outbox.specs.Boxes.{TakesMore};
ghost use Rattle.linda_shared_outbox.specs.Replies.{handed_out};

use linda_wire::Reply;
use slab::Slab;
use std::alloc::{AllocError, Global};

/// The replies that wait for a client, in order, and whether the client is in the list of those
/// that have some. It is there once at most, so it stays listed if it is drained by itself.
#[derive(Drop)]
pub(crate) struct Outbox {
    pub(crate) replies: Vec<Reply>,
    pub(crate) is_listed: bool,
}

/// Makes room for so many more replies in the outbox of this key.
pub(crate) fn make_place(
    boxes: &mut Slab<Outbox>,
    key: usize,
    more: usize,
) -> Result<(), AllocError>
    ensures room { OnOk result (TakesMore more (slab.get boxes.new key)) }
    ensures kept { (n : ℕ) → TakesMore n (slab.get boxes.old key)
        → TakesMore n (slab.get boxes.new key) }
    ensures same { shown (slab.get boxes.new key) ≡ shown (slab.get boxes.old key) }
    ensures others { (k : ℕ) → k ≢ key → slab.get boxes.new k ≡ slab.get boxes.old k }
{
    if let Some(outbox) = boxes.get_mut(key) {
        outbox.replies.reserve(more)?;
    }
    Ok(())
}

/// Posts the reply in the outbox of this key. Returns whether the client is to be listed now.
pub(crate) fn put(boxes: &mut Slab<Outbox>, key: usize, reply: Reply) -> bool
    requires { TakesMore 1 (slab.get boxes.old key) }
    ensures at { shown (slab.get boxes.new key) ≡ posted reply (shown (slab.get boxes.old key)) }
    ensures listed { result ≡ is_unlisted (shown (slab.get boxes.old key)) }
    ensures room { (n : ℕ) → TakesMore (n + 1) (slab.get boxes.old key)
        → TakesMore n (slab.get boxes.new key) }
    ensures others { (k : ℕ) → k ≢ key → slab.get boxes.new k ≡ slab.get boxes.old k }
{
    match boxes.get_mut(key) {
        Some(outbox) => {
            let is_new = !outbox.is_listed;
            outbox.replies.push_reserved(reply);
            outbox.is_listed = true;
            is_new
        }
        None => false,
    }
}

/// Takes all replies out of the outbox of this key.
pub(crate) fn take_out(boxes: &mut Slab<Outbox>, alloc: Global, key: usize) -> Vec<Reply>
    ensures out { result.items ≡ handed_out (replies_in (slab.get boxes.old key)) }
    ensures at { shown (slab.get boxes.new key) ≡ taken_out (shown (slab.get boxes.old key)) }
    ensures others { (k : ℕ) → k ≢ key → slab.get boxes.new k ≡ slab.get boxes.old k }
{
    match boxes.get_mut(key) {
        Some(outbox) => std::mem::replace(&mut outbox.replies, Vec::new(alloc)),
        None => Vec::new(alloc),
    }
}

/// The client of this key is listed no more.
pub(crate) fn unlist(boxes: &mut Slab<Outbox>, key: usize)
    ensures at { shown (slab.get boxes.new key) ≡ unlisted (shown (slab.get boxes.old key)) }
    ensures others { (k : ℕ) → k ≢ key → slab.get boxes.new k ≡ slab.get boxes.old k }
{
    if let Some(outbox) = boxes.get_mut(key) {
        outbox.is_listed = false;
    }
}
