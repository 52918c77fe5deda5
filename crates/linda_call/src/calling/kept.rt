//! The line of a reply that a server keeps to the client.

use linda_text::write_tuple;
use linda_wire::Reply;
use std::alloc::{AllocError, Global};

/// The line of a server that keeps this reply to the client's number, in the words of a state's
/// lines, with its line feed; `None` for a reply to anything else.
///
/// # Errors
///
/// `AllocError` if memory runs out.
pub(super) fn kept_reply_line(
    alloc: Global,
    server: u32,
    client: u32,
    reply: &Reply,
) -> Result<Option<String>, AllocError> {
    let line = match reply {
        Reply::Stored { n, id } => {
            format!(in alloc; "server {server} client {client} {n} stored {id}\n")?
        }
        Reply::Taken { n, id, tuple } => {
            let text = write_tuple(alloc, tuple)?;
            format!(in alloc; "server {server} client {client} {n} taken {id} {text}\n")?
        }
        Reply::Gone { n } => format!(in alloc; "server {server} client {client} {n} gone\n")?,
        Reply::Left { n } => format!(in alloc; "server {server} client {client} {n} left\n")?,
        _ => return Ok(None),
    };
    Ok(Some(line))
}

/// The line of a tuple that a server stored for the client, and whose id is lost, with its line
/// feed.
///
/// # Errors
///
/// `AllocError` if memory runs out.
pub(super) fn write_without_id(
    alloc: Global,
    server: u32,
    client: u32,
) -> Result<String, AllocError> {
    format!(in alloc; "{client} stored {server} none\n")
}

/// The line of a server that keeps no reply to the client, with its line feed.
///
/// # Errors
///
/// `AllocError` if memory runs out.
pub(super) fn write_none(alloc: Global, server: u32, client: u32) -> Result<String, AllocError> {
    format!(in alloc; "server {server} client {client} none\n")
}
