//! Long tuples: each has a tag of 255 letters and no field.

ghost use Rattle.std.specs.Prelude.{IfOk, ◌≤◌, length};
ghost use Rattle.linda_store_step.specs.declared.size.TheConstants.{MAX_BATCH};

use crate::batches::few;
use linda_bag::Bag;
use linda_disk::MemDisk;
use linda_server::Durable;
use linda_store::Node;
use linda_test_script::{WordsFault, read_messages, read_number, split_word, tell, tell_two};
use linda_text::write_tuple;
use linda_wire::Message;
use std::alloc::{AllocError, Global};

/// The letters of a tag.
const LETTERS: usize = 255;

/// `long puts FIRST COUNT`: client 7 puts so many long tuples at once, by its messages from that
/// number on; says how many replies there are. `long kept`: how many of the tuples that are kept
/// are long.
pub(crate) fn play_long(
    alloc: Global,
    server: &mut Durable<MemDisk>,
    words: &str,
    came: &mut String,
) -> Result<(), WordsFault> {
    let (word, rest) = split_word(words);
    match word {
        "puts" => put(alloc, server, rest, came),
        "kept" => tell_kept(alloc, server, came),
        _ => Err(WordsFault::Unknown),
    }
}

// Client 7 puts so many long tuples.
fn put(
    alloc: Global,
    server: &mut Durable<MemDisk>,
    words: &str,
    came: &mut String,
) -> Result<(), WordsFault> {
    let messages = long_batch(alloc, words)?;
    match server.handle_all(alloc, &messages) {
        Ok(sends) => tell_two(came, sends.len(), "replies"),
        Err(fault) => tell(came, fault),
    }
}

// The messages that put so many long tuples, which are few enough for one call.
fn long_batch(alloc: Global, words: &str) -> Result<Vec<(u32, Message)>, WordsFault>
    ensures { IfOk result (λ messages. length messages.items ≤ MAX_BATCH) }
{
    let script = script_of(alloc, words)?;
    few(read_messages(alloc, &script)?)
}

// The script that the words say: its first number, and how many messages it has.
fn script_of(alloc: Global, words: &str) -> Result<String, WordsFault> {
    let (first, count) = split_word(words);
    let first = read_number(first)?;
    let count = read_number(count)?;
    match puts(alloc, first, count) {
        Ok(script) => Ok(script),
        Err(_) => Err(WordsFault::Memory),
    }
}

// The script of so many messages, from this number on.
fn puts(alloc: Global, first: u64, count: u64) -> Result<String, AllocError> {
    let mut script = String::new(alloc);
    push_puts(&mut script, first, count, &long_tuple(alloc)?)?;
    Ok(script)
}

fn push_puts(script: &mut String, first: u64, count: u64, tuple: &str) -> Result<(), AllocError> {
    for k in 0..count {
        let n = first.saturating_add(k);
        push_put(script, n, tuple)?;
    }
    Ok(())
}

fn push_put(script: &mut String, n: u64, tuple: &str) -> Result<(), AllocError> {
    writeln!(script, "7 out {n} {tuple}")
}

// The text of a long tuple.
fn long_tuple(alloc: Global) -> Result<String, AllocError> {
    let mut text = String::new(alloc);
    push_long(&mut text)?;
    Ok(text)
}

fn push_long(text: &mut String) -> Result<(), AllocError> {
    text.push_str("(\"")?;
    for _ in 0..LETTERS {
        text.push('a')?;
    }
    text.push_str("\")")
}

// Writes how many of the tuples that the server keeps are long.
fn tell_kept(
    alloc: Global,
    server: &Durable<MemDisk>,
    came: &mut String,
) -> Result<(), WordsFault> {
    match count_kept(alloc, server) {
        Ok(count) => tell_two(came, count, "long"),
        Err(_) => Err(WordsFault::Memory),
    }
}

fn count_kept(alloc: Global, server: &Durable<MemDisk>) -> Result<u64, AllocError> {
    let long = long_tuple(alloc)?;
    count_long(alloc, server, &long)
}

// How many of the tuples that the server keeps have this text.
fn count_long(alloc: Global, server: &Durable<MemDisk>, long: &str) -> Result<u64, AllocError> {
    let mut count: u64 = 0;
    for id in 0..server.state().next {
        if keeps(alloc, server, id, long)? {
            count = count.saturating_add(1);
        }
    }
    Ok(count)
}

// Whether the server keeps a tuple of this id and of this text.
fn keeps(
    alloc: Global,
    server: &Durable<MemDisk>,
    id: u64,
    text: &str,
) -> Result<bool, AllocError> {
    match server.state().bag.get(id) {
        Some(tuple) => Ok(write_tuple(alloc, tuple)?.as_str() == text),
        None => Ok(false),
    }
}
