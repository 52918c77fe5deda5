//! Requests for the reply that a server keeps to a client.

ghost use Rattle.std.specs.Prelude.{◌≡◌};
ghost use Rattle.linda_call.specs.Asking as spec;

use super::numbers::number_of;
use linda_wire::{Message, Reply};

/// Asks for the reply that is kept to this number: a repeated number gets it, whatever else the
/// message says.
pub(super) fn kept_ask(number: u64) -> Message
    ensures { result ≡ spec.kept_ask number }
{
    Message::Accept {
        n: number,
        ticket: 0,
        id: 0,
    }
}

/// Whether a reply from a server is the one that this server keeps to this number.
pub(super) fn is_answer(from: u32, reply: &Reply, server: u32, number: u64) -> bool
    ensures { result ≡ spec.is_answer from reply.now server number }
{
    match number_of(reply) {
        Some(n) => from == server && n == number,
        None => false,
    }
}
