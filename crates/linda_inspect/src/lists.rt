//! Lines of the tuples and clients that a state keeps.

use crate::fault::OutputFault;
use crate::output::write_lines;
use linda_bag::Bag;
use linda_book::{Book, KeptReply};
use linda_store_state::State;
use linda_text::write_tuple;
use std::alloc::{AllocError, Global};
use std::io::Write;

/// What is listed beside the counts.
#[derive(Clone, Copy, Debug, PartialEq, Eq)]
pub struct Lists {
    /// A line for each tuple.
    pub tuples: bool,
    /// A line for each client.
    pub clients: bool,
}

// Lines are written once they have so many bytes.
const PIECE: usize = 65_536;

/// Writes the next id and how much is kept; and, if they are asked for, the tuples by rising id and
/// the clients by rising number, each with its kept reply.
///
/// # Errors
///
/// `Memory`; `Io`, and then some first lines are written.
pub(crate) fn list_state<B: Bag, W: Write>(
    alloc: Global,
    writer: &mut W,
    state: &State<B>,
    lists: Lists,
) -> Result<(), OutputFault> {
    let next = state.next;
    let tuples = state.bag.len();
    let clients = state.book.len();
    let line = format!(in alloc; "next {next} tuples {tuples} clients {clients}\n")?;
    write_lines(writer, &line)?;
    if lists.tuples {
        list_tuples(alloc, writer, &state.bag)?;
    }
    if lists.clients {
        list_clients(alloc, writer, &state.book)?;
    }
    Ok(())
}

// A line for each tuple: nobody holds one, since holds are not kept.
fn list_tuples<B: Bag, W: Write>(
    alloc: Global,
    writer: &mut W,
    bag: &B,
) -> Result<(), OutputFault> {
    let mut lines = String::new(alloc);
    let mut from = 0;
    for _ in 0..bag.len() {
        let Some(id) = bag.next_from(from) else {
            return write_lines(writer, &lines);
        };
        if let Some(tuple) = bag.get(id) {
            let text = write_tuple(alloc, tuple)?;
            writeln!(lines, "tuple {id} {text} free")?;
        }
        write_piece(writer, &mut lines)?;
        from = id.saturating_add(1);
    }
    write_lines(writer, &lines)
}

// A line for each client.
fn list_clients<W: Write>(alloc: Global, writer: &mut W, book: &Book) -> Result<(), OutputFault> {
    let mut lines = String::new(alloc);
    let mut from = 0;
    for _ in 0..book.len() {
        let Some(client) = book.next_from(from) else {
            return write_lines(writer, &lines);
        };
        if let Some((number, reply)) = book.kept(client) {
            push_client(alloc, &mut lines, client, number, reply)?;
        }
        write_piece(writer, &mut lines)?;
        from = client.saturating_add(1);
    }
    write_lines(writer, &lines)
}

// Writes the lines once they are long, and begins anew.
fn write_piece<W: Write>(writer: &mut W, lines: &mut String) -> Result<(), OutputFault> {
    if lines.len() < PIECE {
        return Ok(());
    }
    write_lines(writer, lines)?;
    lines.clear();
    Ok(())
}

// The line of a client.
fn push_client(
    alloc: Global,
    lines: &mut String,
    client: u32,
    number: u64,
    reply: &KeptReply,
) -> Result<(), AllocError> {
    match reply {
        KeptReply::Stored(id) => writeln!(lines, "client {client} {number} stored {id}"),
        KeptReply::Taken(id, tuple) => {
            let text = write_tuple(alloc, tuple)?;
            writeln!(lines, "client {client} {number} taken {id} {text}")
        }
        KeptReply::Gone => writeln!(lines, "client {client} {number} gone"),
        KeptReply::Left => writeln!(lines, "client {client} {number} left"),
    }
}
