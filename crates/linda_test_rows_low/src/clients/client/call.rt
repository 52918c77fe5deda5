//! The calls of a client, as lines say them.

use crate::clients::events::event_of;
use linda_client::Call;
use linda_test_script::{
    WordsFault, read_number, read_numbered, read_reply, read_small_number, split_word,
};
use linda_text::read_tuple;
use std::alloc::Global;

/// The call that the words say.
pub fn call_of(alloc: Global, words: &str) -> Result<Call, WordsFault> {
    let (verb, rest) = split_word(words);
    match verb {
        "out" => out_of(alloc, rest),
        "sync" => sync_of(alloc, rest),
        "tick" => tick_of(rest),
        "resend" => Ok(Call::Resend),
        "reconnected" => reconnected_of(rest),
        "abandon" => Ok(Call::Abandon),
        "leave" => Ok(Call::Leave),
        _ => receive_of(alloc, words),
    }
}

fn out_of(alloc: Global, tuple: &str) -> Result<Call, WordsFault> {
    Ok(Call::Out(read_tuple(alloc, tuple)?))
}

fn sync_of(alloc: Global, event: &str) -> Result<Call, WordsFault> {
    Ok(Call::Sync(event_of(alloc, event)?))
}

fn tick_of(now: &str) -> Result<Call, WordsFault> {
    Ok(Call::Tick(read_number(now)?))
}

fn reconnected_of(server: &str) -> Result<Call, WordsFault> {
    Ok(Call::Reconnected(read_small_number(server)?))
}

// The reply that is after the number of the server that it comes from.
fn receive_of(alloc: Global, words: &str) -> Result<Call, WordsFault> {
    let (server, words) = read_numbered(words)?;
    Ok(Call::Receive(server, read_reply(alloc, words)?))
}
