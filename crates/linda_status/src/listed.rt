//! A page of tuples or of clients as JSON.

ghost use Rattle.std.specs.Prelude.{◌≡◌, OnOk};
ghost use Rattle.std.specs.List.{flat_map};
ghost use Rattle.linda_inspect.specs.Json.{IsPushed};
ghost use Rattle.linda_status.specs.Listed.{json_begun, json_client, json_client_page};
ghost use Rattle.linda_status.specs.Listed.{json_clients, json_connected, json_counts, json_held};
ghost use Rattle.linda_status.specs.Listed.{json_kept, json_reply};
ghost use Rattle.linda_status.specs.Listed.{json_later_client, json_later_row, json_named};
ghost use Rattle.linda_status.specs.Listed.{json_next};
ghost use Rattle.linda_status.specs.Listed.{json_placed, json_row, json_rows, json_text};
ghost use Rattle.linda_status.specs.Listed.{json_clients_to_end, json_holder, json_rows_to_end};
ghost use Rattle.linda_status.specs.Listed.{json_age, json_connection, json_held_for};
ghost use Rattle.linda_status.specs.Listed.{json_holding, json_ticket};
ghost use Rattle.linda_status.specs.Listed.{json_tuple_page};

use linda_hold::Request;
use linda_inspect::{push_json_member, push_json_string, push_json_tuple};
use linda_shared::{ClientPage, ListedClient, ListedReply, ListedTuple, TuplePage};
use linda_text::write_tuple;
use linda_tuple::Tuple;
use std::alloc::{AllocError, Global};

/// Appends the page: the id from which the next one goes on, and the tuples.
///
/// # Errors
///
/// `AllocError` if memory runs out; a part of it may then be there.
#[tactic(auto, unfolding(crate::specs::Listed::json_tuple_page))]
pub(crate) fn push_tuple_page(
    alloc: Global,
    out: &mut Vec<u8>,
    page: &TuplePage,
) -> Result<(), AllocError>
    ensures { OnOk result (IsPushed out.old out.new (json_tuple_page page.now)) }
{
    push_begin(out, page.next, b",\n\"tuples\":[")?;
    push_rows_to_end(alloc, out, &page.rows)
}

/// Appends the page: the client from which the next one goes on, and the clients.
///
/// # Errors
///
/// `AllocError` if memory runs out; a part of it may then be there.
#[tactic(auto, unfolding(crate::specs::Listed::json_client_page))]
pub(crate) fn push_client_page(out: &mut Vec<u8>, page: &ClientPage) -> Result<(), AllocError>
    ensures { OnOk result (IsPushed out.old out.new (json_client_page page.now)) }
{
    push_begin(out, widened(page.next), b",\n\"clients\":[")?;
    push_clients_to_end(out, &page.rows)
}

// The same number.
fn widened(next: Option<u32>) -> Option<u64>
    ensures { result ≡ next }
{
    match next {
        Some(client) => Some(u64::from(client)),
        None => None,
    }
}

// The number from which the next page goes on, and the beginning of a list.
#[tactic(auto, unfolding(crate::specs::Listed::json_begun))]
fn push_begin(out: &mut Vec<u8>, next: Option<u64>, list: &[u8]) -> Result<(), AllocError>
    ensures { OnOk result (IsPushed out.old out.new (json_begun next list.now)) }
{
    push_next(out, next)?;
    out.extend_from_slice(list)
}

// The number from which the next page goes on.
#[tactic(auto, unfolding(crate::specs::Listed::json_next))]
fn push_next(out: &mut Vec<u8>, next: Option<u64>) -> Result<(), AllocError>
    ensures { OnOk result (IsPushed out.old out.new (json_next next)) }
{
    match next {
        Some(number) => push_json_member(out, b"{\n\"next\":", number),
        None => out.extend_from_slice(b"{\n\"next\":null"),
    }
}

/// Appends each tuple, and the end of the object.
///
/// # Errors
///
/// `AllocError` if memory runs out; a part of it may then be there.
#[tactic(auto, unfolding(crate::specs::Listed::json_rows_to_end))]
pub(crate) fn push_rows_to_end(
    alloc: Global,
    out: &mut Vec<u8>,
    rows: &[ListedTuple],
) -> Result<(), AllocError>
    ensures { OnOk result (IsPushed out.old out.new (json_rows_to_end rows.now)) }
{
    push_rows(alloc, out, rows)?;
    out.extend_from_slice(b"\n]\n}\n")
}

// Each tuple.
#[tactic(auto, unfolding(crate::specs::Listed::json_rows))]
fn push_rows(alloc: Global, out: &mut Vec<u8>, rows: &[ListedTuple]) -> Result<(), AllocError>
    ensures { OnOk result (IsPushed out.old out.new (json_rows rows.now)) }
{
    let Some((first, rest)) = rows.split_first() else {
        return Ok(());
    };
    out.extend_from_slice(b"\n")?;
    push_tuple_row(alloc, out, first)?;
    push_later_rows(alloc, out, rest)
}

// Each tuple, after a comma.
fn push_later_rows(alloc: Global, out: &mut Vec<u8>, rows: &[ListedTuple]) -> Result<(), AllocError>
    ensures { OnOk result (IsPushed out.old out.new (flat_map json_later_row rows.now)) }
{
    for row in rows {
        push_later_row(alloc, out, row)?;
    }
    Ok(())
}

// A tuple after a comma.
#[tactic(auto, unfolding(crate::specs::Listed::json_later_row))]
fn push_later_row(alloc: Global, out: &mut Vec<u8>, row: &ListedTuple) -> Result<(), AllocError>
    ensures { OnOk result (IsPushed out.old out.new (json_later_row row.now)) }
{
    out.extend_from_slice(b",\n")?;
    push_tuple_row(alloc, out, row)
}

// A tuple with its id, its text, for whom it is held and for how long.
#[tactic(auto, unfolding(crate::specs::Listed::json_row))]
fn push_tuple_row(alloc: Global, out: &mut Vec<u8>, row: &ListedTuple) -> Result<(), AllocError>
    ensures { OnOk result (IsPushed out.old out.new (json_row row.now)) }
{
    push_placed(out, row.id, &row.tuple)?;
    push_text(alloc, out, &row.tuple)?;
    push_hold_fields(out, row.held, row.held_for)
}

// A tuple with its id.
#[tactic(auto, unfolding(crate::specs::Listed::json_placed))]
fn push_placed(out: &mut Vec<u8>, id: u64, tuple: &Tuple) -> Result<(), AllocError>
    ensures { OnOk result (IsPushed out.old out.new (json_placed id tuple.now)) }
{
    push_json_member(out, b"{\"id\":", id)?;
    out.extend_from_slice(b",\"tuple\":")?;
    push_json_tuple(out, tuple)
}

// The text of a tuple.
#[tactic(auto, unfolding(crate::specs::Listed::json_text))]
fn push_text(alloc: Global, out: &mut Vec<u8>, tuple: &Tuple) -> Result<(), AllocError>
    ensures { OnOk result (IsPushed out.old out.new (json_text tuple.now)) }
{
    let text = write_tuple(alloc, tuple)?;
    out.extend_from_slice(b",\"text\":")?;
    push_json_string(out, text.as_bytes())
}

// For whom a tuple is held and for how long, and the end of its row.
#[tactic(auto, unfolding(crate::specs::Listed::json_holding))]
fn push_hold_fields(
    out: &mut Vec<u8>,
    held: Option<Request>,
    seconds: Option<u64>,
) -> Result<(), AllocError>
    ensures { OnOk result (IsPushed out.old out.new (json_holding held seconds)) }
{
    push_held(out, held)?;
    push_held_seconds(out, seconds)
}

// For how long a tuple is held, and the end of its row.
#[tactic(auto, unfolding(crate::specs::Listed::json_held_for))]
fn push_held_seconds(out: &mut Vec<u8>, seconds: Option<u64>) -> Result<(), AllocError>
    ensures { OnOk result (IsPushed out.old out.new (json_held_for seconds)) }
{
    push_age(out, b",\"held_seconds\":", seconds)?;
    out.extend_from_slice(b"}")
}

// For how many seconds something is so, after its name.
#[tactic(auto, unfolding(crate::specs::Listed::json_age))]
fn push_age(out: &mut Vec<u8>, name: &[u8], seconds: Option<u64>) -> Result<(), AllocError>
    ensures { OnOk result (IsPushed out.old out.new (json_age name.now seconds)) }
{
    match seconds {
        Some(seconds) => push_json_member(out, name, seconds),
        None => {
            out.extend_from_slice(name)?;
            out.extend_from_slice(b"null")
        }
    }
}

// For whom a tuple is held.
#[tactic(auto, unfolding(crate::specs::Listed::json_held))]
fn push_held(out: &mut Vec<u8>, held: Option<Request>) -> Result<(), AllocError>
    ensures { OnOk result (IsPushed out.old out.new (json_held held)) }
{
    match held {
        Some(request) => push_holder(out, request.client, request.ticket),
        None => out.extend_from_slice(b",\"held\":null"),
    }
}

// The request that a tuple is held for.
#[tactic(auto, unfolding(crate::specs::Listed::json_holder))]
fn push_holder(out: &mut Vec<u8>, client: u32, ticket: u64) -> Result<(), AllocError>
    ensures { OnOk result (IsPushed out.old out.new (json_holder client ticket)) }
{
    push_json_member(out, b",\"held\":{\"client\":", u64::from(client))?;
    push_ticket(out, ticket)
}

// The ticket of that request.
#[tactic(auto, unfolding(crate::specs::Listed::json_ticket))]
fn push_ticket(out: &mut Vec<u8>, ticket: u64) -> Result<(), AllocError>
    ensures { OnOk result (IsPushed out.old out.new (json_ticket ticket)) }
{
    push_json_member(out, b",\"ticket\":", ticket)?;
    out.extend_from_slice(b"}")
}

// Each client, and the end of the object.
#[tactic(auto, unfolding(crate::specs::Listed::json_clients_to_end))]
fn push_clients_to_end(out: &mut Vec<u8>, rows: &[ListedClient]) -> Result<(), AllocError>
    ensures { OnOk result (IsPushed out.old out.new (json_clients_to_end rows.now)) }
{
    push_clients(out, rows)?;
    out.extend_from_slice(b"\n]\n}\n")
}

// Each client.
#[tactic(auto, unfolding(crate::specs::Listed::json_clients))]
fn push_clients(out: &mut Vec<u8>, rows: &[ListedClient]) -> Result<(), AllocError>
    ensures { OnOk result (IsPushed out.old out.new (json_clients rows.now)) }
{
    let Some((first, rest)) = rows.split_first() else {
        return Ok(());
    };
    out.extend_from_slice(b"\n")?;
    push_client(out, first)?;
    push_later_clients(out, rest)
}

// Each client, after a comma.
fn push_later_clients(out: &mut Vec<u8>, rows: &[ListedClient]) -> Result<(), AllocError>
    ensures { OnOk result (IsPushed out.old out.new (flat_map json_later_client rows.now)) }
{
    for row in rows {
        push_later_client(out, row)?;
    }
    Ok(())
}

// A client after a comma.
#[tactic(auto, unfolding(crate::specs::Listed::json_later_client))]
fn push_later_client(out: &mut Vec<u8>, row: &ListedClient) -> Result<(), AllocError>
    ensures { OnOk result (IsPushed out.old out.new (json_later_client row.now)) }
{
    out.extend_from_slice(b",\n")?;
    push_client(out, row)
}

// A client.
#[tactic(auto, unfolding(crate::specs::Listed::json_client))]
fn push_client(out: &mut Vec<u8>, row: &ListedClient) -> Result<(), AllocError>
    ensures { OnOk result (IsPushed out.old out.new (json_client row.now)) }
{
    push_kept(out, row.client, row.number, row.reply)?;
    push_connection(out, row.is_connected, row.connected_for)?;
    push_counts(out, row.holds, row.waits)
}

// A client with its last number and the reply to that.
#[tactic(auto, unfolding(crate::specs::Listed::json_kept))]
fn push_kept(
    out: &mut Vec<u8>,
    client: u32,
    number: u64,
    reply: Option<ListedReply>,
) -> Result<(), AllocError>
    ensures { OnOk result (IsPushed out.old out.new (json_kept client number reply)) }
{
    push_named(out, client, number)?;
    push_reply(out, reply)
}

// The reply that is kept for a client, and the id of the tuple that it speaks of.
#[tactic(auto, unfolding(crate::specs::Listed::json_reply))]
fn push_reply(out: &mut Vec<u8>, reply: Option<ListedReply>) -> Result<(), AllocError>
    ensures { OnOk result (IsPushed out.old out.new (json_reply reply)) }
{
    match reply {
        None => out.extend_from_slice(b",\"reply\":null,\"id\":null"),
        Some(ListedReply::Stored(id)) => {
            push_json_member(out, b",\"reply\":\"stored\",\"id\":", id)
        }
        Some(ListedReply::Taken(id)) => {
            push_json_member(out, b",\"reply\":\"taken\",\"id\":", id)
        }
        Some(ListedReply::Gone) => out.extend_from_slice(b",\"reply\":\"gone\",\"id\":null"),
        Some(ListedReply::Left) => out.extend_from_slice(b",\"reply\":\"left\",\"id\":null"),
    }
}

// A client with its last number.
#[tactic(auto, unfolding(crate::specs::Listed::json_named))]
fn push_named(out: &mut Vec<u8>, client: u32, number: u64) -> Result<(), AllocError>
    ensures { OnOk result (IsPushed out.old out.new (json_named client number)) }
{
    push_json_member(out, b"{\"client\":", u64::from(client))?;
    push_json_member(out, b",\"number\":", number)
}

// Whether a client has a connection, and for how long.
#[tactic(auto, unfolding(crate::specs::Listed::json_connection))]
fn push_connection(
    out: &mut Vec<u8>,
    is_connected: bool,
    seconds: Option<u64>,
) -> Result<(), AllocError>
    ensures { OnOk result (IsPushed out.old out.new (json_connection is_connected seconds)) }
{
    push_connected(out, is_connected)?;
    push_age(out, b",\"connected_seconds\":", seconds)
}

// Whether a client has a connection.
#[tactic(auto, unfolding(crate::specs::Listed::json_connected))]
fn push_connected(out: &mut Vec<u8>, is_connected: bool) -> Result<(), AllocError>
    ensures { OnOk result (IsPushed out.old out.new (json_connected is_connected)) }
{
    if is_connected {
        return out.extend_from_slice(b",\"connected\":true");
    }
    out.extend_from_slice(b",\"connected\":false")
}

// How many tuples are held for a client, and how many of its asks wait; the end of its row.
#[tactic(auto, unfolding(crate::specs::Listed::json_counts))]
fn push_counts(out: &mut Vec<u8>, holds: usize, waits: usize) -> Result<(), AllocError>
    ensures { OnOk result (IsPushed out.old out.new (json_counts holds waits)) }
{
    push_json_member(out, b",\"holds\":", holds as u64)?;
    push_json_member(out, b",\"waits\":", waits as u64)?;
    out.extend_from_slice(b"}")
}
