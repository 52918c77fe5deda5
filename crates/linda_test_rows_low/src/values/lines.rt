//! The lines of scripts.
//!
//! `line LINE` gives the input that the line has, after `says`, and its output, after `tells`.
//! `tidied SCRIPT` gives the script without its blanks. `kept ID TUPLE` and `kept ID none`, both
//! also with ` | CLIENT TICKET` at the end, give what is said of a tuple that is kept, or of none,
//! and held for that request; `sent CLIENT REPLY | CLIENT REPLY` what is said of two replies.

use crate::values::notation::{push_written, tell};
use crate::values::typed::Typed;
use crate::values::words::split_pair;
use linda_test_script::{
    WordsFault, done, read_number, read_numbered, read_reply, said, split_word, tell_replies,
    tell_tuple, tidied, told,
};
use linda_tuple::Tuple;
use linda_wire::Reply;
use std::alloc::{AllocError, Global};

/// Plays a line of a row about lines.
///
/// # Errors
///
/// `Unknown` if it says nothing of the kind; `Memory` if memory runs out.
pub(crate) fn play_lines(alloc: Global, words: &str, came: &mut String) -> Result<(), WordsFault> {
    let (verb, rest) = split_word(words);
    match verb {
        "line" => done(tell_line(came, rest)),
        "tidied" => done(tell_tidied(alloc, came, rest)),
        "kept" => keep(alloc, came, rest),
        "sent" => send(alloc, came, rest),
        _ => Err(WordsFault::Unknown),
    }
}

fn tell_line(came: &mut String, line: &str) -> Result<(), AllocError> {
    tell_part(came, "says", said(line))?;
    tell_part(came, "tells", told(line))
}

fn tell_part(came: &mut String, verb: &str, part: Option<&str>) -> Result<(), AllocError> {
    match part {
        Some(part) => {
            write!(came, "> {verb} \"")?;
            push_written(came, part)?;
            came.push_str("\"\n")
        }
        None => writeln!(came, "> {verb} nothing"),
    }
}

fn tell_tidied(alloc: Global, came: &mut String, script: &str) -> Result<(), AllocError> {
    let lines = tidied(alloc, script)?;
    tell(came, &lines)
}

fn keep(alloc: Global, came: &mut String, words: &str) -> Result<(), WordsFault> {
    let (id, rest) = read_numbered(words)?;
    let (tuple, held) = split_held(rest)?;
    let tuple = kept_tuple(alloc, tuple)?;
    done(tell_tuple(alloc, came, u64::from(id), tuple.as_ref(), held))
}

// The words before the bar, and the request after it, if there is one.
fn split_held(words: &str) -> Result<(&str, Option<(u32, u64)>), WordsFault> {
    match words.split_once(" | ") {
        Some((tuple, request)) => Ok((tuple, Some(request_of(request)?))),
        None => Ok((words, None)),
    }
}

fn kept_tuple(alloc: Global, text: &str) -> Result<Option<Tuple>, WordsFault> {
    if text == "none" {
        Ok(None)
    } else {
        Ok(Some(Tuple::of_words(alloc, text)?))
    }
}

// The client and the ticket.
fn request_of(words: &str) -> Result<(u32, u64), WordsFault> {
    let (client, ticket) = read_numbered(words)?;
    Ok((client, read_number(ticket)?))
}

fn send(alloc: Global, came: &mut String, words: &str) -> Result<(), WordsFault> {
    let (one, other) = split_pair(words)?;
    let replies = [sent_of(alloc, one)?, sent_of(alloc, other)?];
    done(tell_replies(alloc, came, &replies))
}

// The client and the reply that it is sent.
fn sent_of(alloc: Global, words: &str) -> Result<(u32, Reply), WordsFault> {
    let (client, words) = read_numbered(words)?;
    Ok((client, read_reply(alloc, words)?))
}
