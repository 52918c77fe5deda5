//! Holds: which tuple is held for which request.

use crate::servers::waits::{read_request, tell_request};
use linda_hold::Holds;
use linda_test_script::{
    WordsFault, done, read_number, read_small_number, split_number, split_word, tell_found,
    tell_two,
};
use std::alloc::{AllocError, Global};

/// Lets what is held change, or shows it, as the words say.
pub(crate) fn play_holds(
    alloc: Global,
    holds: &mut Holds,
    words: &str,
    came: &mut String,
) -> Result<(), WordsFault> {
    let (word, rest) = split_word(words);
    match word {
        "hold" => hold(holds, rest, came),
        "free" => {
            holds.remove(read_number(rest)?);
            Ok(())
        }
        "second" => {
            holds.set_second(read_number(rest)?);
            Ok(())
        }
        _ => show(alloc, holds, word, rest, came),
    }
}

// Lets the tuple be held for the request, as `1 2 3`; if that holds one already, its id is given.
fn hold(holds: &mut Holds, words: &str, came: &mut String) -> Result<(), WordsFault> {
    let (id, rest) = split_number(words)?;
    let request = read_request(rest)?;
    match holds.find(request) {
        Some(held) => tell_two(came, "holds", held),
        None => done(holds.insert(id, request)),
    }
}

// Shows what the words ask: for which request a tuple is held, which one a request holds, which a
// client holds and how many, and which are held at all.
fn show(
    alloc: Global,
    holds: &Holds,
    what: &str,
    which: &str,
    came: &mut String,
) -> Result<(), WordsFault> {
    match what {
        "of" => tell_request(holds.get(read_number(which)?), came),
        "held" => tell_found(came, holds.find(read_request(which)?)),
        "client" => done(tell_held(alloc, holds, read_small_number(which)?, came)),
        "ids" => done(tell_ids(alloc, holds, came)),
        "ages" => done(tell_oldest(alloc, holds, read_number(which)?, came)),
        _ => show_age(holds, what, which, came),
    }
}

// Shows for how long a tuple is held, or the one that is held for longest.
fn show_age(holds: &Holds, what: &str, which: &str, came: &mut String) -> Result<(), WordsFault> {
    match what {
        "age" => tell_found(came, holds.age(read_number(which)?)),
        "oldest" => tell_found(came, holds.oldest()),
        _ => Err(WordsFault::Unknown),
    }
}

// Writes the tuples that are held for longest, so many at most: each with its id, its request, and
// for how many seconds it is held.
fn tell_oldest(
    alloc: Global,
    holds: &Holds,
    most: u64,
    came: &mut String,
) -> Result<(), AllocError> {
    for hold in &holds.longest(alloc, most as usize)? {
        let request = hold.request;
        writeln!(
            came,
            "> {} for {} {}: {}",
            hold.id, request.client, request.ticket, hold.seconds
        )?;
    }
    Ok(())
}

// Writes how many tuples a client holds, and which.
fn tell_held(
    alloc: Global,
    holds: &Holds,
    client: u32,
    came: &mut String,
) -> Result<(), AllocError> {
    let held = holds.of_client(alloc, client)?;
    writeln!(came, "> {}: {held:?}", holds.count_of(client))
}

// Writes how many tuples are held, and which.
fn tell_ids(alloc: Global, holds: &Holds, came: &mut String) -> Result<(), AllocError> {
    write!(came, "> {}:", holds.len())?;
    for id in &holds.ids(alloc)? {
        write!(came, " {id}")?;
    }
    came.push('\n')
}
