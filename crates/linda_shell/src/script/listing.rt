//! Lines that list what a server keeps.

use linda_bag::Bag;
use linda_book::{Book, KeptReply};
use linda_hold::{Holds, Request};
use linda_store_state::State;
use linda_text::write_tuple;
use linda_tuple::Tuple;
use std::alloc::{AllocError, Global};

/// The lines of a server: its next id and how much it keeps; its tuples by rising id, each free or
/// held; its clients by rising number, each with its kept reply.
///
/// # Errors
///
/// `AllocError` if memory runs out.
pub(crate) fn list_state<B: Bag>(
    alloc: Global,
    server: u32,
    state: &State<B>,
    holds: &Holds,
) -> Result<String, AllocError> {
    let mut lines = String::new(alloc);
    let next = state.next;
    let tuples = state.bag.len();
    let clients = state.book.len();
    writeln!(
        lines,
        "server {server} next {next} tuples {tuples} clients {clients}"
    )?;
    list_tuples(alloc, &mut lines, &state.bag, holds)?;
    list_clients(alloc, &mut lines, &state.book)?;
    Ok(lines)
}

// A line for each tuple.
fn list_tuples<B: Bag>(
    alloc: Global,
    lines: &mut String,
    bag: &B,
    holds: &Holds,
) -> Result<(), AllocError> {
    let mut from = 0;
    for _ in 0..bag.len() {
        let Some(id) = bag.next_from(from) else {
            return Ok(());
        };
        if let Some(tuple) = bag.get(id) {
            push_tuple(alloc, lines, id, tuple, holds.get(id))?;
        }
        if id == u64::MAX {
            return Ok(());
        }
        from = id + 1;
    }
    Ok(())
}

// The line of a tuple, and of the request that it is held for.
fn push_tuple(
    alloc: Global,
    lines: &mut String,
    id: u64,
    tuple: &Tuple,
    held: Option<Request>,
) -> Result<(), AllocError> {
    push_entry(alloc, lines, "tuple", id, tuple)?;
    match held {
        None => lines.push_str(" free\n"),
        Some(Request { client, ticket }) => writeln!(lines, " held {client} {ticket}"),
    }
}

// A line for each client.
fn list_clients(alloc: Global, lines: &mut String, book: &Book) -> Result<(), AllocError> {
    let mut from = 0;
    for _ in 0..book.len() {
        let Some(client) = book.next_from(from) else {
            return Ok(());
        };
        if let Some((number, reply)) = book.kept(client) {
            push_client(alloc, lines, client, number, reply)?;
        }
        if client == u32::MAX {
            return Ok(());
        }
        from = client + 1;
    }
    Ok(())
}

// The line of a client.
fn push_client(
    alloc: Global,
    lines: &mut String,
    client: u32,
    number: u64,
    reply: &KeptReply,
) -> Result<(), AllocError> {
    write!(lines, "client {client} {number} ")?;
    push_kept(alloc, lines, reply)?;
    lines.push('\n')
}

// The reply that is kept for a client.
fn push_kept(alloc: Global, lines: &mut String, reply: &KeptReply) -> Result<(), AllocError> {
    match reply {
        KeptReply::Stored(id) => write!(lines, "stored {id}"),
        KeptReply::Taken(id, tuple) => push_entry(alloc, lines, "taken", *id, tuple),
        KeptReply::Gone => lines.push_str("gone"),
        KeptReply::Left => lines.push_str("left"),
    }
}

// A word, an id and its tuple.
fn push_entry(
    alloc: Global,
    lines: &mut String,
    word: &str,
    id: u64,
    tuple: &Tuple,
) -> Result<(), AllocError> {
    let text = write_tuple(alloc, tuple)?;
    write!(lines, "{word} {id} {text}")
}
