//! A node in memory, call by call.

use crate::batches::batch;
use crate::servers::step::tell_held_tuple;
use linda_disk::Torn;
use linda_store::{Node, NodeFault, Volatile, Work};
use linda_test_script::{
    WordsFault, done, read_message, read_number, read_numbered, read_small_number, split_word,
    tell, tell_replies, tell_two,
};
use linda_wire::Reply;
use std::alloc::Global;

/// Lets the node do what the words say.
pub(crate) fn play_node(
    alloc: Global,
    node: &mut Volatile,
    words: &str,
    came: &mut String,
) -> Result<(), WordsFault> {
    let (word, rest) = split_word(words);
    match word {
        "close" => close(alloc, node, rest, came),
        "all" => answer_all(alloc, node, rest, came),
        "stop" => stop(alloc, node, rest, came),
        "snapshot" => snapshot(alloc, node, came),
        _ => {
            if let Ok((client, words)) = read_numbered(words) {
                answer(alloc, node, client, words, came)
            } else {
                show(alloc, node, word, rest, came)
            }
        }
    }
}

// Lets the node end what a client waits for and holds.
fn close(
    alloc: Global,
    node: &mut Volatile,
    client: &str,
    came: &mut String,
) -> Result<(), WordsFault> {
    let client = read_small_number(client)?;
    tell_answer(alloc, node.close(alloc, client), came)
}

// Lets the node answer the message of a client.
fn answer(
    alloc: Global,
    node: &mut Volatile,
    client: u32,
    words: &str,
    came: &mut String,
) -> Result<(), WordsFault> {
    let message = read_message(alloc, words)?;
    tell_answer(alloc, node.handle(alloc, client, &message), came)
}

// Lets the node answer several messages at once.
fn answer_all(
    alloc: Global,
    node: &mut Volatile,
    words: &str,
    came: &mut String,
) -> Result<(), WordsFault> {
    let messages = batch(alloc, words)?;
    tell_answer(alloc, node.handle_all(alloc, &messages), came)
}

// Stops the node at its work on the messages, and says how many deeds were added.
fn stop(
    alloc: Global,
    node: &mut Volatile,
    words: &str,
    came: &mut String,
) -> Result<(), WordsFault> {
    let work = Work::Messages(batch(alloc, words)?);
    match node.stop(alloc, work, 0, Torn::Lost) {
        Ok(deeds) => tell_two(came, deeds.len(), "deeds"),
        Err(fault) => tell(came, fault),
    }
}

// Lets the node write a snapshot, and says why it does not.
fn snapshot(alloc: Global, node: &mut Volatile, came: &mut String) -> Result<(), WordsFault> {
    match node.snapshot(alloc) {
        Ok(()) => Ok(()),
        Err(fault) => tell(came, fault),
    }
}

// Writes the replies, or why there are none.
fn tell_answer(
    alloc: Global,
    told: Result<Vec<(u32, Reply)>, NodeFault>,
    came: &mut String,
) -> Result<(), WordsFault> {
    match told {
        Ok(sends) => done(tell_replies(alloc, came, &sends)),
        Err(fault) => tell(came, fault),
    }
}

// Shows what the node has, if these words ask.
fn show(
    alloc: Global,
    node: &Volatile,
    what: &str,
    which: &str,
    came: &mut String,
) -> Result<(), WordsFault> {
    match what {
        "tuple" => tell_held_tuple(alloc, node.state(), node.holds(), read_number(which)?, came),
        "next" => tell_two(came, "next", node.state().next),
        "is" => tell(came, if node.is_down() { "down" } else { "up" }),
        _ => Err(WordsFault::Unknown),
    }
}
