//! JSON of the lists: the tuples and clients that a state keeps.

ghost use Rattle.std.specs.Prelude.{OnOk};
ghost use Rattle.std.specs.FinMap.{entries};
ghost use Rattle.std.specs.Io.KnownBytes.{Appends};
ghost use Rattle.linda_book.specs.declared.kept_reply.KeptReply.TheVariants as kept;
ghost use Rattle.linda_store_state.specs.State.{IsState};
ghost use Rattle.linda_inspect.specs.Json.{IsPushed, json_client, json_client_list, json_clients};
ghost use Rattle.linda_inspect.specs.Json.{json_counts, json_entry, json_numbers, json_placed};
ghost use Rattle.linda_inspect.specs.Json.{json_reply, json_state, json_tuple_list, json_tuples};

use super::output::write_bytes;
use super::value::{push_member, push_tuple};
use crate::fault::OutputFault;
use crate::lists::Lists;
use linda_bag::Bag;
use linda_book::{Book, KeptReply};
use linda_snap::{kept_after, tuple_from};
use linda_store_state::State;
use linda_tuple::Tuple;
use std::alloc::{AllocError, Global};
use std::io::Write;

// What is before the first row of a list, and before each later one.
const FIRST: &[u8] = b"\n";

const LATER: &[u8] = b",\n";

/// Writes the next id and how much is kept; and if they are asked for the tuples by rising id, and
/// the clients by rising number, each with its kept reply. The object ends there.
///
/// # Errors
///
/// `Memory`; `Io`, and then some first bytes are written.
pub(super) fn write_state<B: Bag, W: Write>(
    alloc: Global,
    writer: &mut W,
    state: &State<B>,
    lists: Lists,
) -> Result<(), OutputFault>
    requires { IsState state.now }
    ensures { OnOk result (Appends (W.contents writer.old) (W.contents writer.new)
        (json_state lists state.now)) }
{
    write_counts(alloc, writer, state)?;
    write_tuple_list(alloc, writer, state, lists.tuples)?;
    write_client_list(alloc, writer, state, lists.clients)?;
    write_bytes(writer, b"\n}\n")?;
    Ok(())
}

// The next id, and how much is kept.
fn write_counts<B: Bag, W: Write>(
    alloc: Global,
    writer: &mut W,
    state: &State<B>,
) -> Result<(), OutputFault>
    ensures { OnOk result (Appends (W.contents writer.old) (W.contents writer.new)
        (json_counts state.now)) }
{
    let mut out = Vec::new(alloc);
    push_counts(&mut out, state.next, state.bag.len(), state.book.len())?;
    write_bytes(writer, &out)?;
    Ok(())
}

fn push_counts(
    out: &mut Vec<u8>,
    next: u64,
    tuples: usize,
    clients: usize,
) -> Result<(), AllocError>
    ensures { OnOk result (IsPushed out.old out.new (json_numbers next tuples clients)) }
{
    push_member(out, b",\n\"next\":", next)?;
    push_member(out, b",\n\"tuple_count\":", tuples as u64)?;
    push_member(out, b",\n\"client_count\":", clients as u64)?;
    Ok(())
}

// The list of the tuples, if it is asked for.
fn write_tuple_list<B: Bag, W: Write>(
    alloc: Global,
    writer: &mut W,
    state: &State<B>,
    is_asked: bool,
) -> Result<(), OutputFault>
    requires { IsState state.now }
    ensures { OnOk result (Appends (W.contents writer.old) (W.contents writer.new)
        (json_tuple_list is_asked state.now)) }
{
    if !is_asked {
        return Ok(());
    }
    write_bytes(writer, b",\n\"tuples\":[")?;
    write_tuples(alloc, writer, state)?;
    write_bytes(writer, b"\n]")?;
    Ok(())
}

// The list of the clients, if it is asked for.
fn write_client_list<B: Bag, W: Write>(
    alloc: Global,
    writer: &mut W,
    state: &State<B>,
    is_asked: bool,
) -> Result<(), OutputFault>
    ensures { OnOk result (Appends (W.contents writer.old) (W.contents writer.new)
        (json_client_list is_asked state.now)) }
{
    if !is_asked {
        return Ok(());
    }
    write_bytes(writer, b",\n\"clients\":[")?;
    write_clients(alloc, writer, &state.book)?;
    write_bytes(writer, b"\n]")?;
    Ok(())
}

// Each tuple.
fn write_tuples<B: Bag, W: Write>(
    alloc: Global,
    writer: &mut W,
    state: &State<B>,
) -> Result<(), OutputFault>
    requires { IsState state.now }
    ensures { OnOk result (Appends (W.contents writer.old) (W.contents writer.new)
        (json_tuples (entries state.now.bag))) }
{
    let mut row = Vec::new(alloc);
    let mut from = 0;
    let mut mark = FIRST;
    while let Some((id, tuple)) = tuple_from(state, from) {
        row.clear();
        row.extend_from_slice(mark)?;
        push_entry(&mut row, id, tuple)?;
        write_bytes(writer, &row)?;
        from = id + 1;
        mark = LATER;
    }
    Ok(())
}

// A tuple with its id.
fn push_entry(out: &mut Vec<u8>, id: u64, tuple: &Tuple) -> Result<(), AllocError>
    ensures { OnOk result (IsPushed out.old out.new (json_entry (id, tuple.now))) }
{
    out.extend_from_slice(b"{")?;
    push_placed(out, id, tuple)?;
    out.extend_from_slice(b"}")
}

// The members of a tuple with its id.
fn push_placed(out: &mut Vec<u8>, id: u64, tuple: &Tuple) -> Result<(), AllocError>
    ensures { OnOk result (IsPushed out.old out.new (json_placed (id, tuple.now))) }
{
    push_member(out, b"\"id\":", id)?;
    out.extend_from_slice(b",\"tuple\":")?;
    push_tuple(out, tuple)
}

// Each client.
fn write_clients<W: Write>(alloc: Global, writer: &mut W, book: &Book) -> Result<(), OutputFault>
    ensures { OnOk result (Appends (W.contents writer.old) (W.contents writer.new)
        (json_clients (entries book.now))) }
{
    let mut row = Vec::new(alloc);
    let mut last = None;
    let mut mark = FIRST;
    while let Some((client, (number, reply))) = kept_after(book, last) {
        row.clear();
        row.extend_from_slice(mark)?;
        push_client(&mut row, client, number, reply)?;
        write_bytes(writer, &row)?;
        last = Some(client);
        mark = LATER;
    }
    Ok(())
}

// A client with its last number and the reply to it.
fn push_client(
    out: &mut Vec<u8>,
    client: u32,
    number: u64,
    reply: &KeptReply,
) -> Result<(), AllocError>
    ensures { OnOk result (IsPushed out.old out.new (json_client (client, (number, reply.now)))) }
{
    push_member(out, b"{\"client\":", u64::from(client))?;
    push_member(out, b",\"number\":", number)?;
    push_reply(out, reply)?;
    out.extend_from_slice(b"}")
}

// The member of a reply, and those of what it has.
fn push_reply(out: &mut Vec<u8>, reply: &KeptReply) -> Result<(), AllocError>
    ensures { OnOk result (IsPushed out.old out.new (json_reply reply.now)) }
{
    match reply {
        KeptReply::Stored(id) => push_member(out, b",\"reply\":\"stored\",\"id\":", *id),
        KeptReply::Taken(id, tuple) => push_taken(out, *id, tuple),
        KeptReply::Gone => out.extend_from_slice(b",\"reply\":\"gone\""),
        KeptReply::Left => out.extend_from_slice(b",\"reply\":\"left\""),
    }
}

// The members of a reply that has a tuple.
fn push_taken(out: &mut Vec<u8>, id: u64, tuple: &Tuple) -> Result<(), AllocError>
    ensures { OnOk result (IsPushed out.old out.new (json_reply (kept.Taken id tuple.now))) }
{
    out.extend_from_slice(b",\"reply\":\"taken\",")?;
    push_placed(out, id, tuple)
}
