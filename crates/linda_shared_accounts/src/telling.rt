//! Receipts of messages, by what these led to.

ghost use Rattle.std.specs.Prelude.{◌≡◌, ℕ, List, drop, IfOk, length};
ghost use Rattle.std.specs.List.{slice_get};
ghost use Rattle.std.specs.Vec.Iter.{into_iter_items};
ghost use Rattle.linda_wire.specs.declared.message.Message.{Message};
ghost use Rattle.linda_store_state.specs.State as states;
ghost use Rattle.linda_store_state.specs.State.{IsState};
ghost use Rattle.linda_store_step.specs.Soft.{Soft};
ghost use Rattle.linda_store_step.specs.Served.{IsServed};
ghost use Rattle.linda_shared_accounts.specs.Telling as spec;
ghost use Rattle.linda_shared_accounts.specs.Telling.{HasTold, kept_of, told_by};

use crate::receipt::Receipt;
use crate::shared_receipt::SharedReceipt;
use linda_server::{Served, StepCounts};
use linda_store_state::{Deed, KeptReply};
use linda_wire::Reply;
use std::alloc::{AllocError, Global};
use std::vec::IntoIter;

/// For each message the receipt of its deed, if it did one: what the messages' answers say. The
/// receipts have the deeds; what is sent comes out beside them.
///
/// # Errors
///
/// `AllocError` if memory runs out.
pub fn receipts_of(
    alloc: Global,
    served: Served,
) -> Result<(Vec<Option<SharedReceipt>>, Vec<(u32, Reply)>), AllocError>
    ensures told { IfOk result (λ r. r.0.items
        ≡ told_by served.counts.items served.deeds.items served.sends.items) }
    ensures each { IfOk result (λ r. length r.0.items ≡ length served.counts.items) }
    ensures answers { IfOk result (λ r. (st new : states.State) (soft behind : Soft)
        (ms : List (ℕ × Message))
        → IsState st → IsServed st soft ms served new behind
        → HasTold st soft ms r.0.items served.sends.items new behind) }
    ensures sends { IfOk result (λ r. r.1 ≡ served.sends) }
{
    let Served {
        deeds,
        sends,
        counts,
    } = served;
    let mut deeds = deeds.into_iter();
    let told = tell_all(alloc, &mut deeds, &sends, &counts)?;
    Ok((told, sends))
}

// For each count the receipt of its deed, if it has one.
fn tell_all(
    alloc: Global,
    deeds: &mut IntoIter<Deed>,
    sends: &[(u32, Reply)],
    counts: &[StepCounts],
) -> Result<Vec<Option<SharedReceipt>>, AllocError>
    ensures { IfOk result (λ told.
        told.items ≡ told_by counts.now (into_iter_items deeds.old) sends.now) }
{
    let mut told = Vec::with_capacity(alloc, counts.len())?;
    let mut rest = sends;
    for count in counts {
        if count.has_deed {
            let deed = next_of(deeds);
            told.push(receipt_for(alloc, deed, rest)?)?;
        } else {
            told.push(None)?;
        }
        rest = behind(rest, count.sends);
    }
    Ok(told)
}

// The next deed.
fn next_of(deeds: &mut IntoIter<Deed>) -> Option<Deed>
    ensures first { result ≡ slice_get (into_iter_items deeds.old) 0 }
    ensures rest { into_iter_items deeds.new ≡ drop 1 (into_iter_items deeds.old) }
{
    deeds.next()
}

// What comes after the first `n`.
fn behind<T>(xs: &[T], n: usize) -> &[T]
    ensures { result.now ≡ drop n xs.now }
{
    if n <= xs.len() {
        &xs[n..]
    } else {
        &xs[xs.len()..]
    }
}

// The receipt of a deed, given what was sent of it first.
fn receipt_for(
    alloc: Global,
    deed: Option<Deed>,
    sends: &[(u32, Reply)],
) -> Result<Option<SharedReceipt>, AllocError>
    ensures { IfOk result (λ r. r ≡ spec.receipt_for deed sends.now) }
{
    match (deed, sends) {
        (Some(deed), [send, ..]) => receipt_with(alloc, deed, &send.1),
        _ => Ok(None),
    }
}

// The receipt of a deed that was answered so.
fn receipt_with(
    alloc: Global,
    deed: Deed,
    reply: &Reply,
) -> Result<Option<SharedReceipt>, AllocError>
    ensures { IfOk result (λ r. r ≡ spec.receipt_with deed (kept_of reply.now)) }
{
    let reply = match reply {
        Reply::Stored { id, .. } => KeptReply::Stored(*id),
        Reply::Taken { id, tuple, .. } => KeptReply::Taken(*id, tuple.try_clone(alloc)?),
        Reply::Gone { .. } => KeptReply::Gone,
        Reply::Left { .. } => KeptReply::Left,
        _ => return Ok(None),
    };
    let receipt = SharedReceipt::new(alloc, Receipt { deed, reply })?;
    Ok(Some(receipt))
}
