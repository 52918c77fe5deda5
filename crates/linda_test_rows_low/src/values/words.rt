//! The words of messages and replies.
//!
//! `message WORDS` and `reply WORDS` give what is read, in words. `said LINE` and `told LINE` give
//! the frames of a script's line. `numbered WORDS` gives the number at the front, and what is after
//! it.

use crate::values::hexadecimal::tell_made;
use crate::values::told::{tell_alone, tell_fault};
use linda_test_script::{
    WordsFault, done, read_message, read_numbered, read_reply, said_frames, split_word, told_frames,
};
use std::alloc::{AllocError, Global};

/// Plays a line of a row about words.
///
/// # Errors
///
/// `Unknown` if it says nothing of the kind; `Memory` if memory runs out.
pub(crate) fn play_words(alloc: Global, words: &str, came: &mut String) -> Result<(), WordsFault> {
    let (verb, rest) = split_word(words);
    match verb {
        "message" => done(tell_alone(alloc, came, read_message(alloc, rest))),
        "reply" => done(tell_alone(alloc, came, read_reply(alloc, rest))),
        "said" => tell_made(alloc, came, said_frames(alloc, rest)),
        "told" => tell_made(alloc, came, told_frames(alloc, rest)),
        "numbered" => done(tell_numbered(came, rest)),
        _ => Err(WordsFault::Unknown),
    }
}

/// The two parts of some words, before and after the first ` | `.
///
/// # Errors
///
/// `Unknown` if no such bar is there.
pub(crate) fn split_pair(words: &str) -> Result<(&str, &str), WordsFault> {
    match words.split_once(" | ") {
        Some(pair) => Ok(pair),
        None => Err(WordsFault::Unknown),
    }
}

fn tell_numbered(came: &mut String, words: &str) -> Result<(), AllocError> {
    match read_numbered(words) {
        Ok((number, rest)) => writeln!(came, "> {number}, then \"{rest}\""),
        Err(fault) => tell_fault(came, fault),
    }
}
