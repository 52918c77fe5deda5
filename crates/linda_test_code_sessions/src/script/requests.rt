//! Requests of a line, as many as one call may have.

ghost use Rattle.std.specs.Prelude.{◌≡◌, ◌≤◌, ◌<◌, true, length, All, IfOk};
ghost use Rattle.linda_store_step.specs.declared.size.TheConstants.{MAX_BATCH};
ghost use Rattle.linda_shared_queue.specs.Seat.{IsRequest};

use linda_store_step::MAX_BATCH;
use linda_test_script::{WordsFault, read_batch, read_numbered};
use linda_wire::Message;
use std::alloc::Global;

/// The messages of a line, which are a client's, at least one and few enough for one call, and none
/// a Hello.
pub(super) fn requests_in(alloc: Global, words: &str) -> Result<(u32, Vec<Message>), WordsFault>
    ensures { IfOk result (λ r. (0 < length r.1.items) × (length r.1.items ≤ MAX_BATCH)
        × All IsRequest r.1.items) }
{
    let (client, _) = read_numbered(words)?;
    let mut messages = Vec::new(alloc);
    for (_, message) in read_batch(alloc, words)? {
        messages.push(message)?;
    }
    let all: &[Message] = &messages;
    if all.is_empty() || all.len() > MAX_BATCH || !are_requests(all) {
        return Err(WordsFault::Unknown);
    }
    Ok((client, messages))
}

// Whether none is a Hello.
fn are_requests(messages: &[Message]) -> bool
    ensures { result ≡ true → All IsRequest messages.now }
{
    let mut rest = messages;
    while let [first, others @ ..] = rest {
        if !is_request(first) {
            return false;
        }
        rest = others;
    }
    true
}

fn is_request(message: &Message) -> bool
    ensures { result ≡ true → IsRequest message.now }
{
    match message {
        Message::Hello { .. } => false,
        Message::Out { .. } => true,
        Message::Ask { .. } => true,
        Message::Accept { .. } => true,
        Message::Cancel { .. } => true,
        Message::Leave { .. } => true,
    }
}
