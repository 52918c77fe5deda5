//! Clients that are away, and took a tuple by their last message.

ghost use Rattle.std.specs.Prelude.{◌≡◌, ℕ, cond};
ghost use Rattle.linda_shared_outbox.specs.Waiting.{waits_for};
ghost use Rattle.linda_shared_listing.specs.Taken.{is_taken, is_taken_by_absent, IsTakenCount};

use crate::kept::{before, kept_client_after};
use crate::limits::MOST_LOOKED;
use linda_book::{Book, KeptReply};
use linda_shared_outbox::Outboxes;
use linda_snap::kept_after;

/// How many of some clients are away and took a tuple by their last message, at one moment: each
/// may have a job unfinished.
#[derive(Clone, Copy, Debug, PartialEq, Eq)]
pub struct TakenCount {
    /// How many they are.
    pub clients: u32,
    /// The first client that was not looked at. Nothing if there is none.
    pub next: Option<u32>,
}

/// How many clients have no outbox and a kept reply that is a Taken, of those from this one on for
/// which a reply is kept. It looks at 1,000 at most, and takes no memory.
pub fn count_taken(book: &Book, boxes: &Outboxes, from: u32) -> TakenCount
    ensures { IsTakenCount book.now (waits_for boxes.now) from result }
{
    let mut clients = 0;
    let mut last = before(from);
    for _ in 0..MOST_LOOKED {
        let Some((client, (_, reply))) = kept_after(book, last) else {
            return TakenCount {
                clients,
                next: None,
            };
        };
        clients += one_if(is_taken_by_absent(boxes, client, reply));
        last = Some(client);
    }
    TakenCount {
        clients,
        next: kept_client_after(book, last),
    }
}

// 1 if it is so, else 0.
fn one_if(is_so: bool) -> u32
    ensures { result ≡ cond is_so 1 0 }
{
    if is_so {
        return 1;
    }
    0
}

// Whether the client has no outbox, and this reply, which is kept for it, is a Taken.
fn is_taken_by_absent(boxes: &Outboxes, client: u32, reply: &KeptReply) -> bool
    ensures { (number : ℕ) → result
        ≡ is_taken_by_absent (waits_for boxes.now) (client, (number, reply.now)) }
{
    is_taken(reply) && !boxes.has(client)
}

// Whether the reply is a Taken.
fn is_taken(reply: &KeptReply) -> bool
    ensures { result ≡ is_taken reply.now }
{
    match reply {
        KeptReply::Stored(_) => false,
        KeptReply::Taken(_, _) => true,
        KeptReply::Gone => false,
        KeptReply::Left => false,
    }
}
