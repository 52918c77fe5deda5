//! The commands of a script, a line each.

use linda_event::Event;
use linda_shell_text::{Request, behind_word, number_in, read_request};
use linda_text::skip_blanks;
use linda_tuple::Tuple;
use std::alloc::{AllocError, Global};

/// What a line of a script asks for. Servers are named by any number: whether there is such a
/// server is judged later.
#[derive(Drop)]
pub(crate) enum Command {
    /// A client puts a tuple.
    Out { client: u32, tuple: Tuple },
    /// A client waits for an event.
    Sync { client: u32, event: Event },
    /// A client gives up what it waits for.
    Abandon(u32),
    /// A client leaves: it gives up its number.
    Leave(u32),
    /// Each client is given the time.
    Tick(u64),
    /// A server writes a snapshot.
    Snapshot(u64),
    /// A server is stopped with nothing in hand, and opened.
    Stop(u64),
    /// A server is stopped inside the device call of this number of a snapshot, and opened; each
    /// byte that was not synced is this one.
    StopSnapshot { server: u64, call: u64, byte: u8 },
    /// Every packet that was sent is delivered again.
    Repeat,
    /// What a server keeps is shown.
    State(u64),
}

/// What a line asks for: nothing, if it is empty or begins with `#`; `None` inside if it is no
/// command.
///
/// # Errors
///
/// `AllocError` if memory runs out.
pub(crate) fn read_command(
    alloc: Global,
    line: &[u8],
) -> Result<Option<Option<Command>>, AllocError> {
    match line {
        [] => Ok(None),
        [b'#', ..] => Ok(None),
        [_, ..] => Ok(Some(command_in(alloc, skip_blanks(line))?)),
    }
}

// The command in a text without blanks before it.
fn command_in(alloc: Global, text: &[u8]) -> Result<Option<Command>, AllocError> {
    match text {
        [first, ..] if first.is_ascii_digit() => match number_in(text) {
            Some((number, rest)) => match u32::try_from(number) {
                Ok(client) => client_command(alloc, client, rest),
                Err(_) => Ok(None),
            },
            None => Ok(None),
        },
        _ => Ok(server_command(text)),
    }
}

// What a client is to do, after its number.
fn client_command(alloc: Global, client: u32, text: &[u8]) -> Result<Option<Command>, AllocError> {
    if let Some([]) = behind_word(text, b"abandon") {
        return Ok(Some(Command::Abandon(client)));
    }
    match read_request(alloc, text)? {
        Some(Some(Request::Out(tuple))) => Ok(Some(Command::Out { client, tuple })),
        Some(Some(Request::Sync(event))) => Ok(Some(Command::Sync { client, event })),
        Some(Some(Request::Leave)) => Ok(Some(Command::Leave(client))),
        Some(None) | None => Ok(None),
    }
}

// A command that names no client.
fn server_command(text: &[u8]) -> Option<Command> {
    if let Some(rest) = behind_word(text, b"tick") {
        return Some(Command::Tick(last_number(rest)?));
    }
    if let Some(rest) = behind_word(text, b"snapshot") {
        return Some(Command::Snapshot(last_number(rest)?));
    }
    if let Some(rest) = behind_word(text, b"state") {
        return Some(Command::State(last_number(rest)?));
    }
    if let Some(rest) = behind_word(text, b"stop") {
        return stop_in(rest);
    }
    match behind_word(text, b"repeat") {
        Some([]) => Some(Command::Repeat),
        _ => None,
    }
}

// Which server is to be stopped, and where.
fn stop_in(text: &[u8]) -> Option<Command> {
    let (server, rest) = number_in(text)?;
    if rest.is_empty() {
        return Some(Command::Stop(server));
    }
    let (call, rest) = number_in(rest)?;
    let byte = u8::try_from(last_number(rest)?).ok()?;
    Some(Command::StopSnapshot { server, call, byte })
}

// The number that is all of the text.
fn last_number(text: &[u8]) -> Option<u64> {
    match number_in(text) {
        Some((number, [])) => Some(number),
        _ => None,
    }
}
