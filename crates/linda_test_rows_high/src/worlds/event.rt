//! Events of a world, as lines say them.

use super::call::Seat;
use super::stops::stop_of;
use linda_shell_text::{Request, read_request};
use linda_test_script::{
    WordsFault, read_number, read_numbered, read_size, read_small_number, split_word,
};
use linda_world::WorldEvent;
use std::alloc::Global;

/// The event that the words say, for the world that has this place.
pub fn event_of(alloc: Global, words: &str, seat: Seat) -> Result<WorldEvent, WordsFault> {
    let (verb, rest) = split_word(words);
    match verb {
        "deliver" => Ok(WorldEvent::Deliver(read_size(rest)?)),
        "snapshot" => Ok(WorldEvent::Snapshot(read_small_number(rest)?)),
        "close" => close(rest),
        "stop" => stop_of(alloc, rest, seat),
        _ => client_event(alloc, words),
    }
}

// A server ends what waits and what is held for a client.
fn close(words: &str) -> Result<WorldEvent, WordsFault> {
    let (server, client) = read_numbered(words)?;
    let client = read_small_number(client)?;
    Ok(WorldEvent::Close { server, client })
}

// What the client does whose number is first.
fn client_event(alloc: Global, words: &str) -> Result<WorldEvent, WordsFault> {
    let (client, words) = read_numbered(words)?;
    match words {
        "out" => typed(alloc, client, r#"out ("a", 3)"#),
        "in" => typed(alloc, client, r#"sync in ("a", ?i)"#),
        "rd" => typed(alloc, client, r#"sync rd ("a", ?i)"#),
        "abandon" => Ok(WorldEvent::Abandon(client)),
        "resend" => Ok(WorldEvent::Resend(client)),
        _ => longer_event(alloc, client, words),
    }
}

// What a client does, of more than one word.
fn longer_event(alloc: Global, client: u32, words: &str) -> Result<WorldEvent, WordsFault> {
    let (verb, rest) = split_word(words);
    match verb {
        "tick" => tick(client, rest),
        "reconnect" => reconnect(client, rest),
        _ => typed(alloc, client, words),
    }
}

fn tick(client: u32, now: &str) -> Result<WorldEvent, WordsFault> {
    let now = read_number(now)?;
    Ok(WorldEvent::Tick { client, now })
}

fn reconnect(client: u32, server: &str) -> Result<WorldEvent, WordsFault> {
    let server = read_small_number(server)?;
    Ok(WorldEvent::Reconnect { client, server })
}

// What a client does as people type it: `out TUPLE`, `sync EVENT` or `leave`.
fn typed(alloc: Global, client: u32, words: &str) -> Result<WorldEvent, WordsFault> {
    match read_request(alloc, words.as_bytes())? {
        Some(Some(Request::Out(tuple))) => Ok(WorldEvent::Out { client, tuple }),
        Some(Some(Request::Sync(event))) => Ok(WorldEvent::Sync { client, event }),
        Some(Some(Request::Leave)) => Ok(WorldEvent::Leave(client)),
        Some(None) | None => Err(WordsFault::Unknown),
    }
}
