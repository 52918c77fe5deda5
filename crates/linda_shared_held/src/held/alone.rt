//! Messages one by one, if they do not go in one step: what finds no room is refused, and so is
//! what the count of deeds has no room for.

ghost use Rattle.std.specs.Prelude.{◌≡◌, ◌∷◌, [], ℕ, length, vec_len, IfOk, OnOk, OnErr};
ghost use Rattle.linda_store_step.specs.Answer.{last_number};
ghost use Rattle.linda_store_step.specs.Reported as steps;
ghost use Rattle.linda_store_step.specs.Reported.{number_of_message};
ghost use Rattle.linda_shared_outbox.specs.Waiting.{waits_for};
ghost use Rattle.linda_shared_outbox.specs.Replies.{replies_to, with_more};
ghost use Rattle.linda_shared_accounts.specs.Telling.{receipts_in};
ghost use Rattle.linda_shared_held.specs.Kept.{kept, TakesAll, TakesOne, TurnsAway, WaitsSame};
ghost use Rattle.linda_shared_held.specs.Posted.{WentAlone};

use super::serve::serve;
use linda_bag::IndexBag;
use linda_disk::Disk;
use linda_server::Durable;
use linda_shared_accounts::{SharedFault, SharedReceipt};
use linda_shared_outbox::Outboxes;
use linda_store_state::State;
use linda_store_step::comes_next;
use linda_wire::{Message, Refusal, Reply};
use std::alloc::{AllocError, Global};
use std::slice;

/// Takes the messages one by one, in order.
///
/// # Errors
///
/// `Memory`: nothing changed. `Down`: the server is down, and nothing is reported; what the
/// messages before the failed one sent stays posted.
pub(super) fn serve_each<D: Disk>(
    server: &mut Durable<D>,
    receipts: &mut Vec<SharedReceipt>,
    boxes: &mut Outboxes,
    alloc: Global,
    count: u64,
    messages: &[(u32, Message)],
) -> Result<Vec<Option<SharedReceipt>>, SharedFault>
    ensures takes { TakesAll (kept server.old receipts.old boxes.old) count messages.now result
        (kept server.new receipts.new boxes.new) }
    ensures done { IfOk result (λ told. WentAlone server.old count (waits_for boxes.old)
        messages.now told.items (waits_for boxes.new) server.new) }
    ensures still { OnOk result (server.new.down ≡ server.old.down) }
{
    let Ok(mut told) = Vec::with_capacity(alloc, messages.len()) else {
        return Err(SharedFault::Memory);
    };
    let before = receipts.len();
    let mut made = count;
    for message in messages {
        match take_one(server, receipts, boxes, alloc, made, message) {
            Ok(receipt) => {
                made += weigh(&receipt);
                told.push_reserved(receipt);
            }
            Err(_) => {
                receipts.truncate(before);
                return Err(SharedFault::Down);
            }
        }
    }
    Ok(told)
}

// Takes one message by itself.
fn take_one<D: Disk>(
    server: &mut Durable<D>,
    receipts: &mut Vec<SharedReceipt>,
    boxes: &mut Outboxes,
    alloc: Global,
    count: u64,
    message: &(u32, Message),
) -> Result<Option<SharedReceipt>, SharedFault>
    ensures { TakesOne (kept server.old receipts.old boxes.old) count message.now result
        (kept server.new receipts.new boxes.new) }
{
    if count == u64::MAX && is_its_next(server.state(), message.0, &message.1) {
        if server.is_down() {
            return Err(SharedFault::Down);
        }
        turn_away(server, boxes, alloc, message.0, Refusal::Spent)?;
        return Ok(None);
    }
    match serve(server, receipts, boxes, alloc, slice::from_ref(message)) {
        Ok(told) => Ok(first_of(told)),
        Err(SharedFault::Full) => {
            turn_away(server, boxes, alloc, message.0, Refusal::Full)?;
            Ok(None)
        }
        Err(_) => {
            server.give_up();
            Err(SharedFault::Down)
        }
    }
}

// 1 if there is a receipt, else 0.
fn weigh(receipt: &Option<SharedReceipt>) -> u64
    ensures { result ≡ length (receipts_in (receipt.now ∷ [])) }
{
    match receipt {
        Some(_) => 1,
        None => 0,
    }
}

// The first of one.
fn first_of(told: Vec<Option<SharedReceipt>>) -> Option<SharedReceipt>
    requires { vec_len told ≡ 1 }
    ensures { told.items ≡ result ∷ [] }
{
    let mut told = told;
    let Some(one) = told.pop() else {
        unreachable!()
    };
    one
}

// Whether the message bears the number after its client's last.
fn is_its_next(state: &State<IndexBag>, client: u32, message: &Message) -> bool
    ensures { result ≡ steps.comes_next (number_of_message message.now)
        (last_number state.now client) }
{
    comes_next(message, state.book.last(client))
}

// Posts to the client that its message is refused. If there is no memory for that, the server is
// given up.
fn turn_away<D: Disk>(
    server: &mut Durable<D>,
    boxes: &mut Outboxes,
    alloc: Global,
    client: u32,
    refusal: Refusal,
) -> Result<(), SharedFault>
    ensures { TurnsAway server.old boxes.old client refusal result server.new boxes.new }
{
    match post_one(boxes, alloc, client, refusal.reply()) {
        Ok(()) => Ok(()),
        Err(_) => {
            server.give_up();
            Err(SharedFault::Down)
        }
    }
}

// Posts one reply.
fn post_one(
    boxes: &mut Outboxes,
    alloc: Global,
    client: u32,
    reply: Reply,
) -> Result<(), AllocError>
    ensures posted { OnOk result ((c : ℕ) → waits_for boxes.new c
        ≡ with_more (replies_to c ((client, reply) ∷ [])) (waits_for boxes.old c)) }
    ensures err { OnErr result (WaitsSame boxes.old boxes.new) }
{
    let mut sends = Vec::with_capacity(alloc, 1)?;
    sends.push_reserved((client, reply));
    boxes.make_places(&sends)?;
    boxes.post_all(sends);
    Ok(())
}
