//! A server on two disks: what clients say to it, how it is stopped, and what it keeps.

ghost use Rattle.std.specs.Prelude.{IfOk, ◌≤◌, length};
ghost use Rattle.linda_store.specs.Node.{IsBatch};

use crate::batches::batch;
use crate::disks::bytes::{read_bytes, tell_pieces};
use crate::disks::long::play_long;
use crate::disks::steps::play_steps;
use crate::disks::torn::split_torn;
use linda_bag::Bag;
use linda_book::KeptReply;
use linda_disk::MemDisk;
use linda_server::Durable;
use linda_store::{Node, NodeFault, Work, converse};
use linda_store_state::Deed;
use linda_test_script::{
    WordsFault, done, read_message, read_number, read_numbered, split_word, tell, tell_replies,
    tell_two,
};
use linda_wire::{Message, Reply};
use std::alloc::Global;

/// Lets the server that there is do what the words say.
pub(crate) fn play_server(
    alloc: Global,
    server: &mut Option<Durable<MemDisk>>,
    words: &str,
    came: &mut String,
) -> Result<(), WordsFault> {
    match server {
        None => Err(WordsFault::Unknown),
        Some(server) => serve(alloc, server, words, came),
    }
}

fn serve(
    alloc: Global,
    server: &mut Durable<MemDisk>,
    words: &str,
    came: &mut String,
) -> Result<(), WordsFault> {
    let (word, rest) = split_word(words);
    match word {
        "snapshot" => tell_done(server.snapshot(alloc), came),
        "trim" => tell_done(server.trim(), came),
        "look" => look(server, came),
        "stop" => stop(alloc, server, rest, came),
        "talk" => talk(alloc, server, rest, came),
        "all" => say_all(alloc, server, rest, came),
        "long" => play_long(alloc, server, rest, came),
        "kept" => tell_kept(server, rest, came),
        "begin" | "step" | "copy" | "group" | "use" | "begun" | "ids" | "standing" => {
            play_steps(alloc, server, word, rest, came)
        }
        _ => say(alloc, server, words, came),
    }
}

// Takes messages of clients, all at once.
fn say_all(
    alloc: Global,
    server: &mut Durable<MemDisk>,
    words: &str,
    came: &mut String,
) -> Result<(), WordsFault> {
    let messages = batch(alloc, words)?;
    tell_answer(alloc, server.handle_all(alloc, &messages), came)
}

// Takes a message of a client, or lets the client leave, as `7 leaves`.
fn say(
    alloc: Global,
    server: &mut Durable<MemDisk>,
    words: &str,
    came: &mut String,
) -> Result<(), WordsFault> {
    let (client, words) = read_numbered(words)?;
    match words {
        "leaves" => tell_answer(alloc, server.close(alloc, client), came),
        _ => say_words(alloc, server, client, words, came),
    }
}

// Takes the message of a client.
fn say_words(
    alloc: Global,
    server: &mut Durable<MemDisk>,
    client: u32,
    words: &str,
    came: &mut String,
) -> Result<(), WordsFault> {
    let message = read_message(alloc, words)?;
    tell_answer(alloc, server.handle(alloc, client, &message), came)
}

// Writes the replies, or why there are none.
fn tell_answer(
    alloc: Global,
    answer: Result<Vec<(u32, Reply)>, NodeFault>,
    came: &mut String,
) -> Result<(), WordsFault> {
    match answer {
        Ok(sends) => tell_sends(alloc, &sends, came),
        Err(fault) => tell(came, fault),
    }
}

fn tell_sends(alloc: Global, sends: &[(u32, Reply)], came: &mut String) -> Result<(), WordsFault> {
    done(tell_replies(alloc, came, sends))
}

/// Writes why a call was not done.
pub(crate) fn tell_done(done: Result<(), NodeFault>, came: &mut String) -> Result<(), WordsFault> {
    match done {
        Ok(()) => Ok(()),
        Err(fault) => tell(came, fault),
    }
}

// Stops the server inside this device call, and opens it again: `stop 3 kept snapshot`, or in the
// place of `snapshot` messages, or nothing. Writes how many deeds were added.
fn stop(
    alloc: Global,
    server: &mut Durable<MemDisk>,
    words: &str,
    came: &mut String,
) -> Result<(), WordsFault> {
    let (at, rest) = split_word(words);
    let at = read_number(at)?;
    let (torn, rest) = split_torn(rest)?;
    let work = work_of(alloc, rest)?;
    tell_deeds(server.stop(alloc, work, at, torn), came)
}

// What the server is at work on.
fn work_of(alloc: Global, words: &str) -> Result<Work, WordsFault>
    ensures { IfOk result (λ work. IsBatch work) }
{
    if words == "snapshot" {
        return Ok(Work::Snapshot);
    }
    Ok(Work::Messages(batch(alloc, words)?))
}

// Writes how many deeds there are, or why there are none.
fn tell_deeds(told: Result<Vec<Deed>, NodeFault>, came: &mut String) -> Result<(), WordsFault> {
    match told {
        Ok(deeds) => tell_two(came, deeds.len(), "deeds"),
        Err(fault) => tell(came, fault),
    }
}

// Takes the bytes of a connection, and gives the bytes that answer it.
fn talk(
    alloc: Global,
    server: &mut Durable<MemDisk>,
    words: &str,
    came: &mut String,
) -> Result<(), WordsFault> {
    let sent = read_bytes(alloc, words)?;
    let mut written = Vec::new(alloc);
    match converse(alloc, server, &mut sent.as_slice(), &mut written) {
        Ok(_) => tell_pieces(alloc, &written, came),
        Err(fault) => tell(came, fault),
    }
}

/// Writes what the server keeps: the next id, and how many tuples, clients and holds there are.
pub(crate) fn look(server: &Durable<MemDisk>, came: &mut String) -> Result<(), WordsFault> {
    let state = server.state();
    let held = server.holds().len();
    let next = state.next;
    let tuples = state.bag.len();
    let clients = state.book.len();
    done(writeln!(
        came,
        "> next {next}, tuples {tuples}, clients {clients}, held {held}"
    ))
}

// Writes the reply that the server keeps for a client, without its tuple.
fn tell_kept(server: &Durable<MemDisk>, words: &str, came: &mut String) -> Result<(), WordsFault> {
    let (client, _rest) = read_numbered(words)?;
    match server.state().book.kept(client) {
        Some((n, reply)) => tell_reply(came, n, reply),
        None => tell(came, "nothing"),
    }
}

fn tell_reply(came: &mut String, n: u64, reply: &KeptReply) -> Result<(), WordsFault> {
    match reply {
        KeptReply::Stored(id) => tell_place(came, "stored", n, *id),
        KeptReply::Taken(id, _) => tell_place(came, "taken", n, *id),
        KeptReply::Gone => tell_two(came, "gone", n),
        KeptReply::Left => tell_two(came, "left", n),
    }
}

// Writes what came of a message, and the id of its tuple.
fn tell_place(came: &mut String, word: &str, n: u64, id: u64) -> Result<(), WordsFault> {
    done(writeln!(came, "> {word} {n} {id}"))
}
