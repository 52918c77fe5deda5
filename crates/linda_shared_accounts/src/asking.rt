//! Test whether a deed is one that a message asks for.

ghost use Rattle.std.specs.Prelude.{◌↔◌, IsTrue};
ghost use Rattle.linda_store_step.specs.Reported.{IsDeedOf};

use linda_store_state::Deed;
use linda_wire::Message;

/// Whether the deed is one that the client's message asks for.
pub fn is_deed_of(client: u32, message: &Message, deed: &Deed) -> bool
    ensures { IsTrue result ↔ IsDeedOf client message.now deed.now }
{
    if deed.client() != client {
        return false;
    }
    match (message, deed) {
        (
            Message::Out { n, tuple },
            Deed::Out {
                n: number,
                tuple: put,
                ..
            },
        ) => *n == *number && *put == *tuple,
        (
            Message::Accept { n, id, .. },
            Deed::Take {
                n: number,
                id: taken,
                ..
            },
        ) => *n == *number && *id == *taken,
        (
            Message::Accept { n, id, .. },
            Deed::Pass {
                n: number,
                id: passed,
                ..
            },
        ) => *n == *number && *id == *passed,
        (Message::Leave { n }, Deed::Leave { n: number, .. }) => *n == *number,
        _ => false,
    }
}
