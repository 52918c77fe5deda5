//! Lines of what a server sends and keeps.

use linda_shell_text::write_reply;
use linda_text::write_tuple;
use linda_tuple::Tuple;
use linda_wire::Reply;
use std::alloc::{AllocError, Global};

/// Appends a line for each reply, after the client that it goes to, as `> 7 stored 1 1`.
///
/// # Errors
///
/// `AllocError` if memory runs out; some of the lines may then be there.
pub fn tell_replies(
    alloc: Global,
    lines: &mut String,
    replies: &[(u32, Reply)],
) -> Result<(), AllocError> {
    for (client, reply) in replies {
        let words = write_reply(alloc, reply)?;
        writeln!(lines, "> {client} {words}")?;
    }
    Ok(())
}

/// Appends the line of what is kept under an id, and for which request it is held, as `> tuple 1
/// ("a", 3) free`, or `> tuple 1 ("a", 3) held 8 2`; `none` is written for a tuple that is not
/// there.
///
/// # Errors
///
/// `AllocError` if memory runs out; a part of the line may then be there.
pub fn tell_tuple(
    alloc: Global,
    lines: &mut String,
    id: u64,
    tuple: Option<&Tuple>,
    held: Option<(u32, u64)>,
) -> Result<(), AllocError> {
    match tuple {
        Some(tuple) => {
            let tuple = write_tuple(alloc, tuple)?;
            write!(lines, "> tuple {id} {tuple}")?;
        }
        None => write!(lines, "> tuple {id} none")?,
    }
    match held {
        Some((client, ticket)) => writeln!(lines, " held {client} {ticket}"),
        None => lines.push_str(if tuple.is_some() { " free\n" } else { "\n" }),
    }
}
