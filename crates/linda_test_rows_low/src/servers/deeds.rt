//! Deeds, and the questions about them.

use crate::servers::step::tell_deed;
use crate::servers::typed::tuple_of;
use linda_store_state::Deed;
use linda_store_step::{last_number, reported_deed, taker_of};
use linda_test_script::{
    WordsFault, done, read_message, read_number, read_numbered, read_reply, read_small_number,
    split_number, split_word, tell, tell_two,
};
use linda_wire::Reply;
use std::alloc::Global;

/// Does what the words say of the deeds: another deed, as `take 7 1 3`; the last number of a
/// client; who takes a tuple; or which deed is reported of a message.
pub(crate) fn play_deeds(
    alloc: Global,
    deeds: &mut Vec<Deed>,
    words: &str,
    came: &mut String,
) -> Result<(), WordsFault> {
    let (word, rest) = split_word(words);
    match word {
        "last" => tell(
            came,
            last_number(deeds.as_slice(), read_small_number(rest)?),
        ),
        "taker" => tell_taker(taker_of(deeds.as_slice(), read_number(rest)?), came),
        "reported" => report(alloc, rest, came),
        _ => add(alloc, deeds, word, rest),
    }
}

// Adds another deed.
fn add(alloc: Global, deeds: &mut Vec<Deed>, word: &str, words: &str) -> Result<(), WordsFault> {
    Ok(deeds.push(read_deed(alloc, word, words)?)?)
}

// Writes who took a tuple, by which number, or that nobody did.
fn tell_taker(taker: Option<(u32, u64)>, came: &mut String) -> Result<(), WordsFault> {
    match taker {
        Some((client, n)) => tell_two(came, client, n),
        None => tell(came, "none"),
    }
}

// The deed of these words.
fn read_deed(alloc: Global, word: &str, words: &str) -> Result<Deed, WordsFault> {
    let (client, rest) = read_numbered(words)?;
    let (n, rest) = split_number(rest)?;
    match word {
        "put" => {
            let tuple = tuple_of(alloc, rest)?;
            Ok(Deed::Out { client, n, tuple })
        }
        "take" => {
            let id = read_number(rest)?;
            Ok(Deed::Take { client, n, id })
        }
        "pass" => {
            let id = read_number(rest)?;
            Ok(Deed::Pass { client, n, id })
        }
        "leave" => Ok(Deed::Leave { client, n }),
        _ => Err(WordsFault::Unknown),
    }
}

// Writes the deed that is reported of a message of client 7, after its last number, and of the
// reply, as `1: accept 2 1 4; gone 2`.
fn report(alloc: Global, words: &str, came: &mut String) -> Result<(), WordsFault> {
    let (last, message, reply) = split_report(words)?;
    let mut sends: Vec<(u32, Reply)> = Vec::new(alloc);
    sends.push((7, read_reply(alloc, reply)?))?;
    match reported_deed(7, read_message(alloc, message)?, last, &sends) {
        Some(deed) => done(tell_deed(alloc, came, &deed)),
        None => tell(came, "none"),
    }
}

// The last number, and the words of the message and of the reply.
fn split_report(words: &str) -> Result<(u64, &str, &str), WordsFault> {
    let Some((last, rest)) = words.split_once(": ") else {
        return Err(WordsFault::Unknown);
    };
    let Some((message, reply)) = rest.split_once("; ") else {
        return Err(WordsFault::Unknown);
    };
    Ok((read_number(last)?, message, reply))
}
