//! The clients of a server, a page at a time.

ghost use Rattle.std.specs.Prelude.{◌≡◌, IfOk};
ghost use Rattle.std.specs.FinMap as maps;
ghost use Rattle.std.specs.Option.{is_some};
ghost use Rattle.linda_book.specs.Entries.{number_in};
ghost use Rattle.linda_snap.specs.Rising.{first_after};
ghost use Rattle.linda_shared_outbox.specs.Waiting.{waits_for};
ghost use Rattle.linda_shared_listing.specs.Firsts.{IsNext};
ghost use Rattle.linda_shared_listing.specs.Clients.{is_listed, client_of, timeless};
ghost use Rattle.linda_shared_listing.specs.Clients.{listed_reply, reply_in, IsClientPage};

use crate::kept::before;
use crate::lesser::lesser;
use crate::limits::MOST_LOOKED;
use crate::listed::{ClientPage, ListedClient, ListedReply};
use linda_book::{Book, KeptReply};
use linda_hold::{Holds, Waits};
use linda_shared_outbox::Outboxes;
use linda_snap::next_entry;
use std::alloc::{AllocError, Global};

/// The first clients from this one on that have an outbox or for which a reply is kept, in rising
/// order of their numbers: as many as are asked for, one if that is none, and never more than
/// 1,000.
///
/// # Errors
///
/// `AllocError` if memory runs out.
pub fn list_clients(
    alloc: Global,
    book: &Book,
    holds: &Holds,
    waits: &Waits,
    boxes: &Outboxes,
    from: u32,
    limit: usize,
) -> Result<ClientPage, AllocError>
    ensures { IfOk result (IsClientPage book.now (waits_for boxes.now) holds.now waits.now
        from limit) }
{
    let most = limit.max(1).min(MOST_LOOKED as usize);
    let mut rows = Vec::new(alloc);
    let mut next = listed_after(book, boxes, before(from));
    for _ in 0..most {
        let Some(client) = next else {
            return Ok(ClientPage { rows, next: None });
        };
        rows.push(client_of(book, holds, waits, boxes, client))?;
        next = listed_after(book, boxes, Some(client));
    }
    Ok(ClientPage { rows, next })
}

// The least client that is listed, above the last one if there is a last one.
fn listed_after(book: &Book, boxes: &Outboxes, last: Option<u32>) -> Option<u32>
    ensures { IsNext (is_listed book.now (waits_for boxes.now)) (first_after last) result }
{
    lesser(next_kept(book, last), next_open(boxes, last))
}

// The least client for which a reply is kept, above the last one if there is a last one.
fn next_kept(book: &Book, last: Option<u32>) -> Option<u32>
    ensures { IsNext (λ client. is_some (maps.get book.now client)) (first_after last) result }
{
    match next_entry(book, last) {
        Some((client, _)) => Some(client),
        None => None,
    }
}

// The least client that has an outbox, above the last one if there is a last one.
fn next_open(boxes: &Outboxes, last: Option<u32>) -> Option<u32>
    ensures { IsNext (λ client. is_some (waits_for boxes.now client)) (first_after last) result }
{
    boxes.next_after(last)
}

// A client with what there is of it.
fn client_of(
    book: &Book,
    holds: &Holds,
    waits: &Waits,
    boxes: &Outboxes,
    client: u32,
) -> ListedClient
    ensures { timeless result
        ≡ client_of book.now (waits_for boxes.now) holds.now waits.now client }
{
    let (number, reply) = kept_for(book, client);
    ListedClient {
        client,
        number,
        reply,
        is_connected: boxes.has(client),
        connected_for: boxes.age(client),
        holds: holds.count_of(client),
        waits: waits.count_of(client),
    }
}

// The number and the reply that are kept for the client; 0 if there are none.
fn kept_for(book: &Book, client: u32) -> (u64, Option<ListedReply>)
    ensures number { result.0 ≡ number_in (maps.get book.now client) }
    ensures reply { result.1 ≡ reply_in (maps.get book.now client) }
{
    match book.kept(client) {
        Some((number, reply)) => (number, Some(listed_reply(reply))),
        None => (0, None),
    }
}

// The reply without its tuple.
fn listed_reply(reply: &KeptReply) -> ListedReply
    ensures { result ≡ listed_reply reply.now }
{
    match reply {
        KeptReply::Stored(id) => ListedReply::Stored(*id),
        KeptReply::Taken(id, _) => ListedReply::Taken(*id),
        KeptReply::Gone => ListedReply::Gone,
        KeptReply::Left => ListedReply::Left,
    }
}
